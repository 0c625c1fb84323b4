// What is stated for a place, or else another default.
#![tactic(auto, using(crate::proofs::stated::Laws::laws), unfolding(definition::specs::Parts::name_default, definition::specs::Defaults::spec_default, crate::specs::Stated::array_or))]

ghost use Rattle.std.specs.Prelude.{◌≡◌, List, ◌+◌, ◌*◌, ◌≤◌, ◌<◌, ℕ, suc, length};
ghost use Rattle.definition.specs.Starting as Defaults;
ghost use Rattle.definition.specs.Parts.{if_stated, name_default};
ghost use Rattle.definition.specs.Starting.{default_of, constant_as, spec_default};
ghost use Rattle.definition.specs.Tree.{flatten, tree_words};
ghost use Rattle.laws.specs.Links.{Link};
ghost use Rattle.laws.specs.Used.{IsType};
ghost use Rattle.places.specs.Inside.{PlaceIn};
ghost use Rattle.build.specs.Built.{Builds};
ghost use Rattle.build.specs.Parts.{implicit_levels, start_levels};
ghost use Rattle.initial.specs.Stated.{array_or, StatedBy, ConstantIn, ArrayIn, SpecIn};
ghost use Rattle.initial.specs.Rooms.{entry_levels};

use build::built::Unbuilt;
use build::defaults::{default_of, implicit};
use build::known::Known;
use build::leaves::put_leaf;
use build::remembered::type_default;
use definition::layout::INLINE;
use definition::records::{Constant, Place};
use entries::entries::array;

// What a link states by a value without parts, which `leaf` gives, or the default of the place.
pub fn stated_or_default<F: Fn(u32) -> Option<Constant>>(
    known: &Known<'_>,
    place: Place,
    link: u32,
    room: &mut [u32],
    at: usize,
    leaf: F,
) -> Result<usize, Unbuilt>
    requires room { PlaceIn known.now.file place × (at + start_levels known.now.file place * tree_words ≤ length room.old) }
    requires leaf { (n : ℕ) → link ≡ suc n → F.pre leaf n }
    ensures { StatedBy (F.post leaf) known.now.file known.now.index known.now.store link (default_of known.now.file place) at room.old result room.new }
{
    match link.checked_sub(1) {
        Some(n) => put_leaf(leaf(n), room, at),
        None => default_of(known, place, room, at),
    }
}

// A constant, or the implicit default.
pub fn constant_or_implicit(
    known: &Known<'_>,
    place: Place,
    value: u32,
    room: &mut [u32],
    at: usize,
) -> Result<usize, Unbuilt>
    requires { PlaceIn known.now.file place × ConstantIn known.now.file value × (at + implicit_levels known.now.file place * tree_words ≤ length room.old) }
    ensures { Builds known.now.file known.now.index known.now.store flatten (if_stated value (λ u. Defaults.implicit known.now.file place) (constant_as known.now.file place)) at room.old result room.new }
{
    match value.checked_sub(1) {
        Some(c) => put_leaf(known.constant_value(place.shape, c), room, at),
        None => implicit(known, place, room, at),
    }
}

// The default of a named type, as it is remembered; none for a name that is unknown.
pub fn named_default(
    index: &[u32],
    store: &[u32],
    name: u32,
    room: &mut [u32],
    at: usize,
) -> Result<usize, Unbuilt>
    requires { at + tree_words ≤ length room.old }
    ensures { (f : List ℕ) → Link (IsType f) name → Builds f index.now store.now flatten (name_default name) at room.old result room.new }
{
    let t = name.checked_sub(1).ok_or(Unbuilt::None)?;
    type_default(index, store, t, room, at)
}

// The same, of what is known.
pub fn name_default(
    known: &Known<'_>,
    name: u32,
    room: &mut [u32],
    at: usize,
) -> Result<usize, Unbuilt>
    requires { Link (IsType known.now.file) name × (at + tree_words ≤ length room.old) }
    ensures { Builds known.now.file known.now.index known.now.store flatten (name_default name) at room.old result room.new }
{
    named_default(known.index(), known.store(), name, room, at)
}

// The same, or the implicit default where the type is spelled in place.
pub fn spec_default(
    known: &Known<'_>,
    place: Place,
    name: u32,
    room: &mut [u32],
    at: usize,
) -> Result<usize, Unbuilt>
    requires { PlaceIn known.now.file place × SpecIn known.now.file name × (at + implicit_levels known.now.file place * tree_words ≤ length room.old) }
    ensures { Builds known.now.file known.now.index known.now.store flatten (spec_default known.now.file place name) at room.old result room.new }
{
    if name == INLINE {
        return implicit(known, place, room, at);
    }
    name_default(known, name, room, at)
}

// An array of entries, or the default of a type that is named or spelled in place.
pub fn array_or_spec(
    known: &Known<'_>,
    place: Place,
    name: u32,
    first: u32,
    many: u32,
    room: &mut [u32],
    at: usize,
) -> Result<usize, Unbuilt>
    requires { PlaceIn known.now.file place × SpecIn known.now.file name × ArrayIn known.now.file first many × (at + implicit_levels known.now.file place * tree_words ≤ length room.old) × (at + entry_levels known.now.file first many place * tree_words ≤ length room.old) }
    ensures { Builds known.now.file known.now.index known.now.store flatten (array_or known.now.file place first many (spec_default known.now.file place name)) at room.old result room.new }
{
    known.ready();
    if many == 0 {
        return spec_default(known, place, name, room, at);
    }
    array(known, place, first, many, room, at)
}
