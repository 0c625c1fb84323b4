// The default of a type, as it is remembered.
#![tactic(auto, using(crate::proofs::remembered::Laws::laws))]

ghost use Rattle.std.specs.Prelude.{List, ℕ, ◌+◌, ◌≤◌, length};
ghost use Rattle.definition.specs.Ask.{type_default};
ghost use Rattle.definition.specs.Tree.{flatten, tree_words};
ghost use Rattle.laws.specs.Used.{IsType};
ghost use Rattle.build.specs.Built.{Builds};

use crate::built::Unbuilt;
use lines::copy::{Uncopied, copy_known};

// A known tree is copied; a type in progress has none; an unknown one is wanted. There is room for every tree, so that the copy always fits.
pub fn type_default(
    index: &[u32],
    store: &[u32],
    t: u32,
    room: &mut [u32],
    at: usize,
) -> Result<usize, Unbuilt>
    requires { at + tree_words ≤ length room.old }
    ensures { (f : List ℕ) → IsType f t → Builds f index.now store.now flatten (type_default t) at room.old result room.new }
{
    match copy_known(index, store, t, room, at) {
        Err(Uncopied::Unknown) => Err(Unbuilt::Wanted(t)),
        Err(Uncopied::None) => Err(Unbuilt::None),
        Err(Uncopied::TooLarge) => Err(Unbuilt::TooLarge),
        Ok(end) => Ok(end),
        Err(Uncopied::Full) => Err(Unbuilt::None),
    }
}
