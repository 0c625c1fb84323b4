// Values without parts.
#![tactic(auto, using(crate::proofs::Single::laws))]

ghost use Rattle.std.specs.Prelude.{◌≡◌, ℕ, ◌+◌, ◌*◌, ◌<◌, Ok};
ghost use Rattle.definition.specs.Layout as Layout;
ghost use Rattle.definition.specs.Layout.{entries};
ghost use Rattle.definition.specs.Records.{entry_at};
ghost use Rattle.definition.specs.Scalar.{as_tree};
ghost use Rattle.definition.specs.Ask.{result_of};
ghost use Rattle.places.specs.Inside.{ShapeIn};
ghost use Rattle.gather.specs.Leaves.{simple_of, Pushes, PushesTree};

use crate::answers::{Filling, Listed};
use build::built::Unbuilt;
use build::known::Known;
use build::leaves::put_leaf;
use definition::layout::NODE_WORDS;
use definition::records::{Constant, Entry, Shape};
use places::expressions::expression;
use places::values::{constant_value, enumerated_value};
use records::file::File;
use tree_changes::limit::may_add;

// What a constant, an enumerated value or an expression gives a place.
pub fn simple_value(file: &File<'_>, shape: Shape, e: u32) -> Option<Constant>
    requires { ShapeIn file.now.source shape × (e < Layout.count file.now.source entries) }
    ensures { as_tree (result_of result) ≡ simple_of file.now.source shape (entry_at file.now.source e) }
{
    let entry = file.source.entry(e);
    match entry {
        Entry::Constant { number } => constant_value(file, shape, number),
        Entry::Enumerated { value, qualifier } => {
            enumerated_value(file, shape, value, qualifier)
        }
        Entry::Expression { number } => expression(file, shape, number),
        _ => None,
    }
}

// The same, of the file that is known.
pub fn simple(known: &Known<'_>, shape: Shape, e: u32) -> Option<Constant>
    requires { ShapeIn known.now.file shape × (e < Layout.count known.now.file entries) }
    ensures { as_tree (result_of result) ≡ simple_of known.now.file shape (entry_at known.now.file e) }
{
    simple_value(known.file(), shape, e)
}

// How many nodes lie between two places.
pub fn nodes_between(from: usize, to: usize) -> usize
    ensures { (k : ℕ) → to ≡ from + 6 * k → result ≡ k }
{
    to.saturating_sub(from) / NODE_WORDS
}

// A tree from a place up to its end becomes the next value of an array, where it may be added.
pub fn push_tree(end: usize, l: Filling, at: usize) -> Result<Listed, Unbuilt>
    ensures { PushesTree (Ok end) l at result }
{
    let nodes = nodes_between(at, end);
    may_add(l.places, l.made, l.size, 1, nodes)?;
    Ok(Listed {
        end,
        made: l.made + 1,
        size: l.size + nodes,
    })
}

// Writes the next value of an array.
pub fn push_leaf(
    value: Option<Constant>,
    l: Filling,
    room: &mut [u32],
    at: usize,
) -> Result<Listed, Unbuilt>
    ensures { Pushes value l room.old at result room.new }
{
    let end = put_leaf(value, room, at)?;
    push_tree(end, l, at)
}
