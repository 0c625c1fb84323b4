// The places of a node's parts (`part_place` of the definition of start memory).
#![tactic(auto, using(crate::proofs::Parting::laws))]

ghost use Rattle.std.specs.Prelude.{◌≡◌, ◌<◌, length, get_or};
ghost use Rattle.definition.specs.Places.{field_place};
ghost use Rattle.places.specs.Inside.{PlaceIn};
ghost use Rattle.memory_definition.specs.Cells as Cells;
ghost use Rattle.memory_definition.specs.Cells.{place_or, part_place};
ghost use Rattle.memory_layout.specs.Parts.{Given, Located, entries_place};

use definition::layout::SHAPE_FIELDS;
use definition::records::{Place, Shape};
use places::field::field_place;
use places::place::{bare, leaf_place};
use records::file::File;

// Where a part stands that its shape does not have.
fn nowhere() -> Place
    ensures { result ≡ Cells.nowhere }
{
    bare(Shape::Unknown)
}

// A field of a structure or a function block, by its name.
fn named_part(file: &File<'_>, classes: &[u32], place: Place, name: u32) -> Place
    requires { Given file.now.source classes.now × PlaceIn file.now.source place }
    ensures is { result ≡ place_or (field_place file.now.source place name) }
    ensures located { Located file.now.source result }
{
    field_place(file, classes, place, name).unwrap_or(nowhere())
}

// The place of all entries of an array, worked out once; that of anything else is not looked at.
pub fn entries_place(file: &File<'_>, classes: &[u32], place: Place) -> Place
    requires { Given file.now.source classes.now × Located file.now.source place }
    ensures { result ≡ entries_place file.now.source place }
{
    let shape = place.shape;
    match shape {
        Shape::Array {
            element: _,
            first: _,
            count: _,
        } => leaf_place(file, classes, place),
        _ => place,
    }
}

// The place of part k, which has a name.
fn part_place(
    file: &File<'_>,
    classes: &[u32],
    place: Place,
    entry: Place,
    k: u32,
    name: u32,
) -> Place
    requires { Given file.now.source classes.now × Located file.now.source place × (entry ≡ entries_place file.now.source place) }
    ensures is { result ≡ part_place file.now.source place k name }
    ensures located { Located file.now.source result }
{
    let shape = place.shape;
    match shape {
        Shape::Structure { first, count: _ } => {
            if file.source.run_word(SHAPE_FIELDS, first, k, 0) == name {
                return named_part(file, classes, place, name);
            }
            nowhere()
        }
        Shape::Array {
            element: _,
            first: _,
            count: _,
        } => entry,
        Shape::FunctionBlock { name: _ } => named_part(file, classes, place, name),
        _ => nowhere(),
    }
}

// The place of part k, which begins with its name at a place of the tree's words.
pub fn place_at(
    file: &File<'_>,
    classes: &[u32],
    place: Place,
    entry: Place,
    k: u32,
    tree: &[u32],
    at: usize,
) -> Place
    requires { Given file.now.source classes.now × Located file.now.source place × (entry ≡ entries_place file.now.source place) × (at < length tree.now) }
    ensures is { result ≡ part_place file.now.source place k (get_or tree.now at 0) }
    ensures located { Located file.now.source result }
{
    part_place(file, classes, place, entry, k, tree[at])
}
