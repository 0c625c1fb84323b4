// Fields under a structure's head.
#![tactic(auto, using(crate::proofs::fields::Laws::laws))]

ghost use Rattle.std.specs.Prelude.{◌≡◌, ◌+◌, ◌*◌, ◌≤◌, ◌<◌, length};
ghost use Rattle.definition.specs.Tree.{tree_words};
ghost use Rattle.build.specs.Parts.{is_listed};
ghost use Rattle.build.specs.Fields.{NamesField, HeadsStructure};

use crate::built::Unbuilt;
use definition::layout::{BLOCK_FIELDS, TREE_WORDS};
use records::source::Source;
use tree::node::write_structure;

// In-outs of a block are no fields of its instances.
pub fn is_listed(file: &Source<'_>, section: usize, k: u32) -> bool
    requires { (section < 14) }
    ensures { result ≡ is_listed file.now section k }
{
    section != BLOCK_FIELDS || file.word(section, k, 2) != 2
}

// A field's tree takes its name, where all that is gathered under the head at `at` is small enough.
pub fn name_field(
    room: &mut [u32],
    at: usize,
    to: usize,
    end: usize,
    name: u32,
) -> Result<usize, Unbuilt>
    requires { (at ≤ to) × (to ≤ end) × (to < length room.old) }
    ensures { NamesField at to end name room.old result room.new }
{
    if TREE_WORDS < end - at {
        return Err(Unbuilt::TooLarge);
    }
    room[to] = name;
    Ok(end)
}

// The head over so many fields that stand behind it, up to an end.
pub fn head_structure(room: &mut [u32], at: usize, made: u32, end: usize) -> Result<usize, Unbuilt>
    requires { at + 6 ≤ length room.old }
    ensures { HeadsStructure at made end room.old result room.new }
{
    write_structure(room, at, made);
    Ok(end)
}
