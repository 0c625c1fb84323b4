// The default of a type, by its declaration (`declared_default`, `block_default`, `type_default`).
#![tactic(auto, using(crate::proofs::body::Laws::laws), unfolding(definition::specs::Records::alias_base, definition::specs::Defaults::body_by, definition::specs::Defaults::body, initial::specs::Stated::simple_default, initial::specs::Stated::alias_default, initial::specs::Stated::base_default, initial::specs::Stated::array_or, initial::specs::Rooms::body_levels, initial::specs::Rooms::body_levels_by))]

ghost use Rattle.std.specs.Prelude.{◌≡◌, ◌+◌, ◌*◌, ◌≤◌, ◌<◌, length};
ghost use Rattle.definition.specs.Records.{declaration_at};
ghost use Rattle.definition.specs.Starting as Defaults;
ghost use Rattle.definition.specs.Starting.{body_by};
ghost use Rattle.definition.specs.Tree.{flatten, tree_words};
ghost use Rattle.laws.specs.Used.{IsType};
ghost use Rattle.places.specs.Inside.{PlaceIn};
ghost use Rattle.build.specs.Built.{Builds};
ghost use Rattle.initial.specs.Rooms.{body_levels_by, body_levels};

use crate::alias::{base_default, simple_default, subrange_default};
use crate::parts::{Elements, Variables, parts};
use build::built::Unbuilt;
use build::defaults::implicit;
use build::known::Known;
use build::leaves::put_leaf;
use definition::layout::TYPES;
use definition::records::{Declaration, Place};
use initial::stated::{array_or_spec, constant_or_implicit};
use scalar::node;

// The default that a type's declaration gives it. An instance of a function block has its inputs, outputs and internal variables.
fn declared_default(
    known: &Known<'_>,
    place: Place,
    t: u32,
    d: Declaration,
    room: &mut [u32],
    at: usize,
) -> Result<usize, Unbuilt>
    requires { PlaceIn known.now.file place × IsType known.now.file t × (d ≡ declaration_at known.now.file t) × (at + body_levels_by known.now.file place d * tree_words ≤ length room.old) }
    ensures { Builds known.now.file known.now.index known.now.store flatten (body_by known.now.file t place d) at room.old result room.new }
{
    match d {
        Declaration::Nothing => {
            let base = known.word(TYPES, t, 1);
            base_default(known, place, base, room, at)
        }
        Declaration::Simple { initializer } => simple_default(known, place, initializer, room, at),
        Declaration::Subrange { named, start } => {
            subrange_default(known, place, named, start, room, at)
        }
        Declaration::String { start } => constant_or_implicit(known, place, start, room, at),
        Declaration::Array {
            named,
            first,
            count,
        } => array_or_spec(known, place, named, first, count, room, at),
        Declaration::Structure { first, count } => {
            parts::<Elements>(known, place, first, count, room, at)
        }
        Declaration::Reference { named: _ } => put_leaf(Some(node::null()), room, at),
        Declaration::FunctionBlock { first, count } => {
            parts::<Variables>(known, place, first, count, room, at)
        }
        Declaration::Unknown => Err(Unbuilt::None),
        _ => implicit(known, place, room, at),
    }
}

// The default of the type t as its record says it.
pub fn body(known: &Known<'_>, t: u32, room: &mut [u32], at: usize) -> Result<usize, Unbuilt>
    requires { IsType known.now.file t × (at + body_levels known.now.file t * tree_words ≤ length room.old) }
    ensures { Builds known.now.file known.now.index known.now.store flatten (Defaults.body known.now.file t) at room.old result room.new }
{
    let place = known.place_of(t);
    let d = known.declaration(t);
    declared_default(known, place, t, d, room, at)
}
