// The value that a shape without parts starts with when nothing declares one (`implicit_default` of scalar.rs, and `implicit` of resolver.rs for strings and references).
#![tactic(auto, using(crate::proofs::default::Laws::laws))]

ghost use Rattle.std.specs.Prelude.{◌≡◌};
ghost use Rattle.definition.specs.Ask.{ok};
ghost use Rattle.definition.specs.Scalar as scalar;
ghost use Rattle.definition.specs.Scalar.{as_tree};
ghost use Rattle.definition.specs.Ask.{result_of};
ghost use Rattle.scalar.specs.Default.{implicit_by};

use crate::node::{enumerated, null, of_kind};
use crate::string::cut_string;
use definition::records::{Constant, Shape};

// A temporal literal is long for a type of 64 bits.
#[tactic(auto, unfolding(definition::specs::Scalar::long))]
fn long(bits: u32) -> u32
    ensures { result ≡ scalar.long bits }
{
    (bits == 64) as u32
}

fn zero_of(kind: u32, width: u32) -> Option<Constant>
    ensures { as_tree (result_of result) ≡ scalar.zero_of kind width }
{
    Some(Constant {
        width,
        ..of_kind(kind, 0, 0)
    })
}

fn as_integer(c: Constant) -> Option<Constant>
    ensures { as_tree (result_of result) ≡ ok (scalar.as_integer_tree c) }
{
    Some(Constant {
        kind: 1,
        width: 0,
        ..c
    })
}

// Least is a subrange's lower constant, member the name at an enumeration's default place, and setting the default string length: other shapes look at none of them.
pub fn implicit_default(
    shape: Shape,
    least: Constant,
    member: u32,
    setting: u32,
) -> Option<Constant>
    ensures { as_tree (result_of result) ≡ implicit_by shape least member setting }
{
    match shape {
        Shape::Bool => zero_of(0, 0),
        Shape::Int { .. } => zero_of(1, 0),
        Shape::UInt { .. } => zero_of(1, 0),
        Shape::Real { .. } => zero_of(3, 0),
        Shape::Bytes { .. } => zero_of(1, 0),
        Shape::Time { bits } => zero_of(4, long(bits)),
        Shape::Date { bits } => zero_of(6, long(bits)),
        Shape::TimeOfDay { bits } => zero_of(5, long(bits)),
        Shape::DateAndTime { bits } => zero_of(7, long(bits)),
        Shape::String { length, width } => cut_string(length, width, 0, 0, setting),
        Shape::Enumeration {
            first: _,
            count,
            default,
            underlying: _,
        } => { (default < count).then_some(enumerated(member, 0)) }
        Shape::Subrange { .. } => as_integer(least),
        Shape::Reference { .. } => Some(null()),
        _ => None,
    }
}
