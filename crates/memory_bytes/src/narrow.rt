// Whether each character of a node fits its bytes (all others are refusal 15).
#![tactic(auto, using(crate::proofs::Spelling::spelling))]

ghost use Rattle.std.specs.Prelude.{◌≡◌, ◌^◌};
ghost use Rattle.memory_definition.specs.Numbers.{character_bytes};
ghost use Rattle.memory_definition.specs.Forms as Forms;
ghost use Rattle.memory_definition.specs.Forms.{file_characters, characters_from, every_below};
ghost use Rattle.memory_forms.specs.Cell.{cell_of};

use definition::layout::CHARACTERS;
use definition::records::Shape;
use memory_definition::form::Form;
use memory_forms::form::{character_size, form_of};
use records::source::Source;
use tree::node::Node;

fn every_below(file: &Source<'_>, limit: u32, first: u32, many: u32) -> bool
    ensures { result ≡ every_below limit (characters_from (file_characters file.now) first many) }
{
    (0..many).all(|k| file.run_word(CHARACTERS, first, k, 0) < limit)
}

// How many characters there are of a width.
fn character_limit(width: u32) -> u32
    ensures { result ≡ 256 ^ character_bytes width }
{
    256u32.pow(character_size(width) as u32)
}

#[tactic(auto, using(crate::proofs::Standing::narrowing))]
pub fn narrow(file: &Source<'_>, shape: Shape, node: Node) -> bool
    ensures { result ≡ Forms.narrow file.now (file_characters file.now) (cell_of shape node) }
{
    let Form::String { most: _, width } = form_of(file, shape, node.value.kind) else {
        return true;
    };
    every_below(
        file,
        character_limit(width),
        node.value.low,
        node.value.high,
    )
}
