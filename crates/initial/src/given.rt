// A member list over a value, as `entries` forms it.
#![tactic(auto, using(crate::proofs::given::Laws::laws))]

ghost use Rattle.std.specs.Prelude.{◌+◌, ◌*◌, ◌≤◌, length};
ghost use Rattle.definition.specs.Tree.{tree_words};
ghost use Rattle.places.specs.Inside.{PlaceIn};
ghost use Rattle.initial.specs.Stated.{MembersIn, SmallAt, Applies};
ghost use Rattle.initial.specs.Rooms.{entry_levels};

use build::built::Unbuilt;
use build::known::Known;
use definition::records::Place;
use tree::node::write_structure;
use tree::part::{Value, value_at};

// A member list over the tree from `at` to `end`: a structure, whose fields get a head of their own, or the answer is none.
pub fn apply_members(
    known: &Known<'_>,
    place: Place,
    first: u32,
    many: u32,
    room: &mut [u32],
    at: usize,
    end: usize,
) -> Result<usize, Unbuilt>
    requires { PlaceIn known.now.file place × MembersIn known.now.file first many × SmallAt room.old at end × (at + entry_levels known.now.file first many place * tree_words ≤ length room.old) }
    ensures { Applies known.now.file known.now.index known.now.store place first many at end room.old result room.new }
{
    known.ready();
    let value = value_at(&room[..], at).ok_or(Unbuilt::None)?;
    let Value::Structure(count) = value else {
        return Err(Unbuilt::None);
    };
    write_structure(room, at, count);
    entries::entries::apply_members(known, first, many, place, room, at, end)
}
