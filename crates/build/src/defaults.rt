// What a place starts with by itself (`default_of`, `implicit`, `element_defaults`), formed at `at` of the room. What lies behind the answer is scratch.
#![tactic(auto, using(crate::proofs::defaults::Laws::laws))]

ghost use Rattle.std.specs.Prelude.{◌≡◌, ◌+◌, ◌*◌, ◌^◌, ◌≤◌, ◌<◌, length};
ghost use Rattle.definition.specs.declared.records.Shape.TheVariants as shape;
ghost use Rattle.definition.specs.Starting as Defaults;
ghost use Rattle.definition.specs.Parts.{fields_by, structured, element_defaults};
ghost use Rattle.definition.specs.Starting.{default_of};
ghost use Rattle.definition.specs.Places.{element_place};
ghost use Rattle.definition.specs.Tree.{flatten, tree_words};
ghost use Rattle.places.specs.Inside.{PlaceIn};
ghost use Rattle.build.specs.Built.{Ready, Builds};
ghost use Rattle.build.specs.Parts.{implicit_levels, start_levels, listed_names, BuildsField, array_words};

use crate::built::Unbuilt;
use crate::fields::{head_structure, name_field};
use crate::known::Known;
use crate::leaves::put_leaf;
use definition::layout::{BLOCK_FIELDS, NODE_WORDS, SHAPE_FIELDS};
use definition::records::{Place, Shape};

// A place starts at its type's default, or at the implicit default of its shape.
#[cycle(defaults_of_places)]
pub fn default_of(
    known: &Known<'_>,
    place: Place,
    room: &mut [u32],
    at: usize,
) -> Result<usize, Unbuilt>
    requires { PlaceIn known.now.file place × (at + start_levels known.now.file place * tree_words ≤ length room.old) }
    ensures { Builds known.now.file known.now.index known.now.store flatten (default_of known.now.file place) at room.old result room.new }
{
    match place.id.checked_sub(1) {
        Some(t) => known.type_default(t, room, at),
        None => implicit(known, place, room, at),
    }
}

// The default of a place that nothing declares one for.
#[cycle(defaults_of_places)]
pub fn implicit(
    known: &Known<'_>,
    place: Place,
    room: &mut [u32],
    at: usize,
) -> Result<usize, Unbuilt>
    requires { PlaceIn known.now.file place × (at + implicit_levels known.now.file place * tree_words ≤ length room.old) }
    ensures { Builds known.now.file known.now.index known.now.store flatten (Defaults.implicit known.now.file place) at room.old result room.new }
{
    let shape = place.shape;
    match shape {
        Shape::Structure { first, count } => fields(
            known,
            place,
            SHAPE_FIELDS,
            first,
            count,
            room,
            at,
        ),
        Shape::Array {
            element,
            first,
            count,
        } => element_defaults(known, place, element, first, count, room, at),
        Shape::FunctionBlock { name: _ } => {
            let run = known.block_run(place).ok_or(Unbuilt::None)?;
            fields(known, place, BLOCK_FIELDS, run.first, run.count, room, at)
        }
        _ => put_leaf(known.built_in(shape), room, at),
    }
}

// One field at `to`, under the head at `at`.
#[cycle(defaults_of_places)]
fn field_default(
    known: &Known<'_>,
    place: Place,
    name: u32,
    room: &mut [u32],
    at: usize,
    to: usize,
) -> Result<usize, Unbuilt>
    requires { PlaceIn known.now.file place × (at ≤ to) × (to ≤ at + tree_words) × (at + implicit_levels known.now.file place * tree_words ≤ length room.old) }
    ensures { BuildsField known.now.file known.now.index known.now.store place name at to room.old result room.new }
{
    let inner = known.field_place(place, name).ok_or(Unbuilt::None)?;
    let end = default_of(known, inner, room, to)?;
    name_field(room, at, to, end, name)
}

// All fields of a structure or a block, under their head.
#[cycle(defaults_of_places)]
fn fields(
    known: &Known<'_>,
    place: Place,
    section: usize,
    first: u32,
    many: u32,
    room: &mut [u32],
    at: usize,
) -> Result<usize, Unbuilt>
    requires { PlaceIn known.now.file place × (section < 14) × (first + many < 2 ^ 32) × (at + implicit_levels known.now.file place * tree_words ≤ length room.old) }
    ensures { Builds known.now.file known.now.index known.now.store flatten (structured (fields_by known.now.file (default_of known.now.file) place (listed_names known.now.file section first many))) at room.old result room.new }
{
    let mut made: u32 = 0;
    let mut to = at + NODE_WORDS;
    for k in first..first + many {
        if !known.is_listed(section, k) {
            continue;
        }
        let name = known.word(section, k, 0);
        to = field_default(known, place, name, room, at, to)?;
        made += 1;
    }
    head_structure(room, at, made, to)
}

// Every element's default, listed flat under an array's head.
#[cycle(defaults_of_places)]
pub fn element_defaults(
    known: &Known<'_>,
    place: Place,
    element: u32,
    first: u32,
    many: u32,
    room: &mut [u32],
    at: usize,
) -> Result<usize, Unbuilt>
    requires { PlaceIn known.now.file place × (place.shape ≡ shape.Array element first many) × (at + 6 + start_levels known.now.file (element_place known.now.file place element) * tree_words ≤ length room.old) × (at + tree_words ≤ length room.old) }
    ensures { Builds known.now.file known.now.index known.now.store array_words (element_defaults known.now.file (default_of known.now.file) place) at room.old result room.new }
{
    let inner = known.element_place(place, element);
    let end = default_of(known, inner, room, at + NODE_WORDS)?;
    known.spread(first, many, room, at, end)
}
