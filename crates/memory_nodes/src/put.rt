// Characters and nodes put into lent words, each behind those before.
#![tactic(auto, using(crate::proofs::Texts::texts))]

ghost use Rattle.std.specs.Prelude.{◌≡◌, [], ◌∷◌, ◌+◌, ◌*◌, ◌<◌, ◌≤◌, length, drop};
ghost use Rattle.laws.specs.Puts.{Puts};
ghost use Rattle.tree.specs.Node.{words_of};
ghost use Rattle.memory_definition.specs.Numbers.{character_bytes, text_from};
ghost use Rattle.memory_definition.specs.Memory.{node_words_of};
ghost use Rattle.memory_definition.specs.Forms.{size_as, node_as, text_as};
ghost use Rattle.memory_laws.specs.Same.{SizedAs};
ghost use Rattle.memory_nodes.specs.Reading.{own, seen, Few};

use crate::bytes::number_from;
use crate::node::{node_read, short_from};
use definition::layout::NODE_WORDS;
use memory_definition::form::Form;
use memory_forms::form::character_size;
use records::source::Source;
use tree::node::{Node, write};

#[tactic(auto, using(crate::proofs::Texts::characters))]
fn put_word(words: &mut [u32], at: usize, word: u32) -> usize
    requires { at < length words.old }
    ensures { Puts (word ∷ []) words.old at result words.new }
{
    words[at] = word;
    at + 1
}

// So many characters of a width.
#[tactic(auto, using(crate::proofs::Texts::characters))]
fn put_characters(
    characters: &mut [u32],
    at: usize,
    bytes: &[u8],
    from: usize,
    width: u32,
    many: u32,
) -> usize
    requires { (from + character_bytes width * many ≤ length bytes.now) × (at + many ≤ length characters.old) }
    ensures { Puts (text_from (character_bytes width) many (drop from bytes.now)) characters.old at result characters.new }
{
    let size = character_size(width);
    let mut place = from;
    let mut end = at;
    for _ in 0..many {
        let character = number_from(bytes, place, size) as u32;
        end = put_word(characters, end, character);
        place += size;
    }
    end
}

// How many characters a form has in its bytes.
pub fn text_length(form: Form, bytes: &[u8], from: usize) -> u32
    requires { from + size_as form ≤ length bytes.now }
    ensures is { result ≡ length (text_as form (own form bytes.now from)) }
    ensures small { result ≤ 65535 }
{
    let Form::String { .. } = form else {
        return 0;
    };
    short_from(bytes, from + 2)
}

// The characters of a form.
pub fn put_text(characters: &mut [u32], at: usize, form: Form, bytes: &[u8], from: usize) -> usize
    requires { (from + size_as form ≤ length bytes.now) × Few form (own form bytes.now from) × (at + length (text_as form (own form bytes.now from)) ≤ length characters.old) }
    ensures { Puts (text_as form (own form bytes.now from)) characters.old at result characters.new }
{
    let Form::String { most: _, width } = form else {
        return at;
    };
    let many = short_from(bytes, from + 2);
    put_characters(characters, at, bytes, from + 4, width, many)
}

#[tactic(auto, using(crate::proofs::Texts::nodes))]
fn put_node(out: &mut [u32], at: usize, node: Node) -> usize
    requires { at + 6 ≤ length out.old }
    ensures { Puts (words_of node) out.old at result out.new }
{
    write(out, at, node);
    at + NODE_WORDS
}

// What is read in place of a node, put at a place; its characters stand behind so many others.
#[tactic(auto, using(crate::proofs::Texts::nodes))]
pub fn put_read(
    file: &Source<'_>,
    node: Node,
    form: Form,
    many: u32,
    bytes: &[u8],
    from: usize,
    out: &mut [u32],
    at: usize,
) -> usize
    requires { SizedAs form × (from + size_as form ≤ length bytes.now) × (at + 6 ≤ length out.old) }
    ensures { Puts (node_words_of (node_as file.now form many (seen node.value.kind node.value.low) (own form bytes.now from))) out.old at result out.new }
{
    let read = node_read(
        file,
        form,
        many,
        node.value.kind,
        node.value.low,
        bytes,
        from,
    );
    put_node(out, at, read)
}
