// The default that an alias or a subrange gives its type (`alias_default`).
#![tactic(auto, using(crate::proofs::alias::Laws::laws), unfolding(definition::specs::Records::named_type, definition::specs::Defaults::alias_default_by, definition::specs::Defaults::subrange_default, initial::specs::Stated::alias_default, initial::specs::Stated::simple_default, initial::specs::Stated::base_default, initial::specs::Stated::array_or, initial::specs::Stated::members_over, initial::specs::Rooms::alias_levels, initial::specs::Rooms::alias_levels_by, initial::specs::Rooms::simple_levels))]

ghost use Rattle.std.specs.Prelude.{◌≡◌, ◌+◌, ◌*◌, ◌≤◌, ◌<◌, length};
ghost use Rattle.definition.specs.Starting.{subrange_default};
ghost use Rattle.definition.specs.Tree.{flatten, tree_words};
ghost use Rattle.laws.specs.Links.{Link};
ghost use Rattle.laws.specs.Used.{IsType};
ghost use Rattle.places.specs.Inside.{PlaceIn};
ghost use Rattle.build.specs.Built.{Builds};
ghost use Rattle.build.specs.Parts.{implicit_levels};
ghost use Rattle.initial.specs.Stated.{alias_default, simple_default, base_default, AliasIn, SpecIn, ConstantIn, StartIn, Over};
ghost use Rattle.initial.specs.Rooms.{alias_levels, simple_levels};

use build::built::Unbuilt;
use build::defaults::implicit;
use build::known::Known;
use build::leaves::put_leaf;
use definition::layout::INITIALIZERS;
use definition::records::{Initializer, Place};
use initial::given::apply_members;
use initial::stated::{array_or_spec, constant_or_implicit, name_default, spec_default};

// The default that an alias gives its type.
pub fn alias_default(
    known: &Known<'_>,
    place: Place,
    i: u32,
    room: &mut [u32],
    at: usize,
) -> Result<usize, Unbuilt>
    requires { PlaceIn known.now.file place × AliasIn known.now.file i × (at + alias_levels known.now.file i place * tree_words ≤ length room.old) }
    ensures { Builds known.now.file known.now.index known.now.store flatten (alias_default known.now.file i place) at room.old result room.new }
{
    let v = known.initializer(i);
    let name = known.word(INITIALIZERS, i, 1);
    match v {
        Initializer::Subrange { .. } => spec_default(known, place, name, room, at),
        Initializer::Simple { value } => match value.checked_sub(1) {
            Some(c) => put_leaf(known.constant_value(place.shape, c), room, at),
            None => name_default(known, name, room, at),
        },
        Initializer::String { value, .. } => constant_or_implicit(known, place, value, room, at),
        Initializer::FunctionBlock { first, count } | Initializer::Structure { first, count } => {
            let end = name_default(known, name, room, at)?;
            apply_members(known, place, first, count, room, at, end)
        }
        Initializer::Array { first, count } => {
            array_or_spec(known, place, name, first, count, room, at)
        }
        Initializer::Unknown => Err(Unbuilt::None),
        _ => implicit(known, place, room, at),
    }
}

// A subrange's own start value wins although its base gives none, but not where the base is too large.
fn over_base(
    known: &Known<'_>,
    place: Place,
    start: u32,
    base: Result<usize, Unbuilt>,
    room: &mut [u32],
    at: usize,
) -> Result<usize, Unbuilt>
    requires { PlaceIn known.now.file place × ConstantIn known.now.file start × (at + 6 ≤ length room.old) }
    ensures { Over known.now.file place start at base room.old result room.new }
{
    let Some(c) = start.checked_sub(1) else {
        return base;
    };
    match base {
        Err(Unbuilt::TooLarge) => Err(Unbuilt::TooLarge),
        Err(Unbuilt::Wanted(d)) => Err(Unbuilt::Wanted(d)),
        _ => put_leaf(known.constant_value(place.shape, c), room, at),
    }
}

// The default of a subrange.
pub fn subrange_default(
    known: &Known<'_>,
    place: Place,
    name: u32,
    start: u32,
    room: &mut [u32],
    at: usize,
) -> Result<usize, Unbuilt>
    requires { PlaceIn known.now.file place × SpecIn known.now.file name × ConstantIn known.now.file start × (at + implicit_levels known.now.file place * tree_words ≤ length room.old) }
    ensures { Builds known.now.file known.now.index known.now.store flatten (subrange_default known.now.file place name start) at room.old result room.new }
{
    if name == 0 {
        return Err(Unbuilt::None);
    }
    let base = spec_default(known, place, name, room, at);
    over_base(known, place, start, base, room, at)
}

// The default of an alias's base, or the implicit default.
pub fn base_default(
    known: &Known<'_>,
    place: Place,
    base: u32,
    room: &mut [u32],
    at: usize,
) -> Result<usize, Unbuilt>
    requires { PlaceIn known.now.file place × Link (IsType known.now.file) base × (at + implicit_levels known.now.file place * tree_words ≤ length room.old) }
    ensures { Builds known.now.file known.now.index known.now.store flatten (base_default known.now.file place base) at room.old result room.new }
{
    match base.checked_sub(1) {
        Some(t) => known.type_default(t, room, at),
        None => implicit(known, place, room, at),
    }
}

// The default of a type that a simple declaration declares.
pub fn simple_default(
    known: &Known<'_>,
    place: Place,
    start: u32,
    room: &mut [u32],
    at: usize,
) -> Result<usize, Unbuilt>
    requires { PlaceIn known.now.file place × StartIn known.now.file start × (at + simple_levels known.now.file start place * tree_words ≤ length room.old) }
    ensures { Builds known.now.file known.now.index known.now.store flatten (simple_default known.now.file place start) at room.old result room.new }
{
    let i = start.checked_sub(1).ok_or(Unbuilt::None)?;
    alias_default(known, place, i, room, at)
}
