// A variable's initializer, completed with the tree that it starts with.
#![tactic(auto, using(crate::proofs::Completing::completings))]

ghost use Rattle.std.specs.Prelude.{◌≡◌, ◌&&◌, ◌+◌, ◌≤◌, leb, length};
ghost use Rattle.complete.specs.Completion.{Completing};

use crate::decide::completed_kind;
use crate::rewrite::write_value;
use definition::layout::NODE_WORDS;
use records::source::Source;
use tree::words::fits;

// Whether there is a node between two places of so many words.
fn has_top(length: usize, at: usize, end: usize) -> bool
    ensures { result ≡ leb end length && leb (at + 6) end }
{
    if length < end {
        return false;
    }
    fits(end, at, NODE_WORDS)
}

fn complete_tree(file: &Source<'_>, v: u32, room: &mut [u32], at: usize, end: usize) -> Option<u32>
    requires { (at + 6 ≤ end) × (end ≤ length room.old) }
    ensures { Completing file.now v room.old at end result room.new }
{
    let kind = completed_kind(file, v, room[at + 1])?;
    write_value(file, kind, room, at, end);
    Some(kind)
}

// The tree of variable v stands from `at` up to `end`. Where its initializer is completed, in a kind, the tree stands there then as it is in its
// slot, with as many nodes; where it is left, every word stays. Words before and behind the tree always stay.
pub fn completion(file: &Source<'_>, v: u32, room: &mut [u32], at: usize, end: usize) -> Option<u32>
    ensures { Completing file.now v room.old at end result room.new }
{
    if has_top(room.len(), at, end) {
        complete_tree(file, v, room, at, end)
    } else {
        None
    }
}
