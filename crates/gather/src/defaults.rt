// The defaults of an array's elements, listed flat: `build` forms them under a head, which is taken away.
#![tactic(auto, using(crate::proofs::Elements::laws))]

ghost use Rattle.std.specs.Prelude.{◌+◌, ◌*◌};
ghost use Rattle.places.specs.Inside.{PlaceIn};
ghost use Rattle.gather.specs.Room.{RoomThere, shapes_deep};
ghost use Rattle.gather.specs.Elements.{ElementDefaults};

use crate::answers::Listed;
use build::built::Unbuilt;
use build::defaults;
use build::known::Known;
use build::spread::flatten_values;
use definition::layout::NODE_WORDS;
use definition::records::{Place, Shape};

// Every element's default, moved to where the head of all was.
pub fn element_defaults(
    known: &Known<'_>,
    place: Place,
    room: &mut [u32],
    at: usize,
) -> Result<Listed, Unbuilt>
    requires { PlaceIn known.now.file place × RoomThere room.old at (12282 + 24576 * shapes_deep known.now.file) }
    ensures { ElementDefaults known.now.file known.now.index known.now.store place room.old at result room.new }
{
    known.ready();
    let shape = place.shape;
    let Shape::Array {
        element,
        first,
        count,
    } = shape
    else {
        return Err(Unbuilt::None);
    };
    let end = defaults::element_defaults(known, place, element, first, count, room, at)?;
    let v = flatten_values(room, at, end);
    Ok(Listed {
        end: at + v.nodes * NODE_WORDS,
        made: v.count as usize,
        size: v.nodes,
    })
}
