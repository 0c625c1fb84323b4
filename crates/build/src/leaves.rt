// Values without parts.
#![tactic(auto, using(crate::proofs::leaves::Laws::laws))]

ghost use Rattle.std.specs.Prelude.{◌≡◌, ◌+◌, ◌≤◌, length};
ghost use Rattle.definition.specs.Peek.{got};
ghost use Rattle.definition.specs.Scalar.{built_in};
ghost use Rattle.definition.specs.Tree.{flatten};
ghost use Rattle.build.specs.Built.{Puts};
ghost use Rattle.build.specs.Leaves.{PutsLeaf};

use crate::built::Unbuilt;
use crate::known::Known;
use definition::records::{Constant, Shape};
use tree::node::write_leaf;

// A leaf's node at a place, where there is room for it.
pub fn put_leaf(leaf: Option<Constant>, room: &mut [u32], at: usize) -> Result<usize, Unbuilt>
    ensures { PutsLeaf leaf at room.old result room.new }
{
    let c = leaf.ok_or(Unbuilt::None)?;
    write_leaf(room, at, c).ok_or(Unbuilt::None)
}
