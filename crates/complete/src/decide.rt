// Which kind a variable's initializer is completed in, by the kind of its value's top (`fold_var_decl`): none where it is left.
#![tactic(auto, using(crate::proofs::Deciding::decides))]

ghost use Rattle.std.specs.Prelude.{◌≡◌};
ghost use Rattle.complete.specs.Decide.{kind_of, type_kind, retyped_kind, completed_kind};

use crate::slots::{kind_for_shape, may_retype, taken};
use definition::layout::{INITIALIZERS, SHAPES, TYPES, VARIABLES};
use records::source::Source;

// The kind of initializer that a type takes (`shape_of`).
fn type_kind(file: &Source<'_>, t: u32) -> Option<u32>
    ensures { result ≡ kind_of (type_kind file.now t) }
{
    let shape = file.word(TYPES, t, 0);
    let referenced = file.word(TYPES, t, 3);
    kind_for_shape(file.word(SHAPES, shape, 0), referenced)
}

// The kind that the variable's type takes, where its initializer states no value (`retyped`).
fn retyped_kind(file: &Source<'_>, v: u32, i: u32, kind: u32) -> Option<u32>
    ensures { result ≡ kind_of (retyped_kind file.now v i kind) }
{
    let own = file.word(INITIALIZERS, i, 0);
    let value = file.word(INITIALIZERS, i, 3);
    if may_retype(own, value) {
        let t = file.word(VARIABLES, v, 2).checked_sub(1)?;
        let other = type_kind(file, t)?;
        taken(other, kind)
    } else {
        None
    }
}

pub fn completed_kind(file: &Source<'_>, v: u32, kind: u32) -> Option<u32>
    ensures { result ≡ kind_of (completed_kind file.now v kind) }
{
    let i = file.word(VARIABLES, v, 3);
    let own = taken(file.word(INITIALIZERS, i, 0), kind);
    own.or(retyped_kind(file, v, i, kind))
}
