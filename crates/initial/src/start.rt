// What an initializer gives a place (`initializer`).
#![tactic(auto, using(crate::proofs::start::Laws::laws), unfolding(definition::specs::Defaults::initializer, definition::specs::Defaults::initializer_by, crate::specs::Stated::array_or, crate::specs::Stated::members_over, crate::specs::Rooms::init_levels, crate::specs::Rooms::init_levels_by))]

ghost use Rattle.std.specs.Prelude.{◌+◌, ◌*◌, ◌≤◌, ◌<◌, length};
ghost use Rattle.definition.specs.Layout.{count, initializers};
ghost use Rattle.definition.specs.Starting as Defaults;
ghost use Rattle.definition.specs.Tree.{flatten, tree_words};
ghost use Rattle.places.specs.Inside.{PlaceIn};
ghost use Rattle.build.specs.Built.{Builds};
ghost use Rattle.initial.specs.Rooms.{init_levels};

use crate::given::apply_members;
use crate::stated::stated_or_default;
use crate::values::{enumerated_entry, reference_leaf};
use build::built::Unbuilt;
use build::defaults::default_of;
use build::known::Known;
use definition::records::{Initializer, Place};
use entries::entries::array;

// What an initializer gives a place. A late resolved one states a constant that gives none.
pub fn initializer(
    known: &Known<'_>,
    place: Place,
    i: u32,
    room: &mut [u32],
    at: usize,
) -> Result<usize, Unbuilt>
    requires { PlaceIn known.now.file place × (i < count known.now.file initializers) × (at + init_levels known.now.file i place * tree_words ≤ length room.old) }
    ensures { Builds known.now.file known.now.index known.now.store flatten (Defaults.initializer known.now.file i place) at room.old result room.new }
{
    let v = known.initializer(i);
    match v {
        Initializer::Nothing => default_of(known, place, room, at),
        Initializer::Subrange { value }
        | Initializer::Simple { value }
        | Initializer::String { value, .. } => {
            stated_or_default(
                known,
                place,
                value,
                room,
                at,
                |c| known.constant_value(place.shape, c),
            )
        }
        Initializer::EnumeratedValues { value } | Initializer::EnumeratedType { value } => {
            stated_or_default(
                known,
                place,
                value,
                room,
                at,
                |e| enumerated_entry(known, place.shape, e),
            )
        }
        Initializer::FunctionBlock { first, count } | Initializer::Structure { first, count } => {
            let end = default_of(known, place, room, at)?;
            apply_members(known, place, first, count, room, at, end)
        }
        Initializer::Array { first, count } => {
            if count == 0 {
                return default_of(known, place, room, at);
            }
            array(known, place, first, count, room, at)
        }
        Initializer::Reference { value } => {
            stated_or_default(known, place, value, room, at, |x| reference_leaf(known, x))
        }
        Initializer::LateResolved { value } => stated_or_default(
            known,
            place,
            value,
            room,
            at,
            |_| None,
        ),
        _ => Err(Unbuilt::None),
    }
}
