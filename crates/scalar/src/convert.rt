// A constant as a literal of the kind that a place stores, or none where the place cannot hold it (`convert` of scalar.rs).
#![tactic(auto, using(crate::proofs::convert::Laws::arms))]

ghost use Rattle.std.specs.Prelude.{◌≡◌, ◌&&◌, ◌||◌, eqb, leb};
ghost use Rattle.definition.specs.declared.records.Shape.TheVariants as shape;
ghost use Rattle.definition.specs.Scalar as scalar;
ghost use Rattle.laws.specs.Bits.{Bits};
ghost use Rattle.definition.specs.Ask.{result_of};
ghost use Rattle.scalar.specs.Convert.{as_string_by, converted_by, Counts};

use crate::node::of_kind;
use crate::string::cut_string;
use definition::records::{Constant, Shape};
use ranges::range::{fits, negative, size, within};
use rounding::rounded;

#[tactic(auto, using(crate::proofs::convert::Laws::laws))]
fn is_bit(c: Constant) -> bool
    ensures { result ≡ scalar.is_integer c && eqb c.sign 0 && leb (scalar.size_of c) 1 }
{
    c.kind == 1 && c.sign == 0 && size(c) <= 1
}

// BOOL takes the integers 0 and 1, which become FALSE and TRUE, and booleans: no bit string.
#[tactic(auto, using(crate::proofs::convert::Laws::laws))]
fn as_bool(c: Constant) -> Option<Constant>
    ensures { result_of result ≡ scalar.as_bool c }
{
    if is_bit(c) {
        return Some(of_kind(0, c.low, 0));
    }
    (c.kind == 0).then_some(c)
}

#[tactic(auto, using(crate::proofs::convert::Laws::laws))]
fn is_whole(c: Constant) -> bool
    ensures { result ≡ scalar.is_integer c || eqb c.kind 2 }
{
    c.kind == 1 || c.kind == 2
}

// Integers and bit strings stay what they are.
#[tactic(auto, using(crate::proofs::convert::Laws::laws))]
fn as_integer(test: bool, c: Constant) -> Option<Constant>
    ensures { result_of result ≡ scalar.kept ((scalar.is_integer c || eqb c.kind 2) && test) c }
{
    (is_whole(c) && test).then_some(c)
}

// REAL literals are kept bit for bit, integers are rounded.
#[tactic(auto, using(crate::proofs::convert::Laws::laws))]
fn as_real(bits: u32, c: Constant) -> Option<Constant>
    ensures { result_of result ≡ scalar.as_real bits c }
{
    if c.kind == 1 {
        let r = rounded(bits, negative(c), size(c));
        return Some(of_kind(3, (r & 0xffff_ffff) as u32, (r >> 32) as u32));
    }
    (c.kind == 3).then_some(c)
}

// A time or a date takes only its own kind.
#[tactic(auto, using(crate::proofs::convert::Laws::laws))]
fn as_count(kind: u32, test: bool, c: Constant) -> Option<Constant>
    ensures { result_of result ≡ scalar.kept (eqb c.kind kind && test) c }
{
    (c.kind == kind && test).then_some(c)
}

#[tactic(auto, using(crate::proofs::convert::Laws::laws))]
fn as_string(length: u32, width: u32, c: Constant, setting: u32) -> Option<Constant>
    requires { Counts (shape.String length width) c }
    ensures { result_of result ≡ as_string_by setting length width c }
{
    if c.kind == 8 {
        return cut_string(length, width, c.low, c.high, setting);
    }
    None
}

// The two bounds are a subrange's constants, and the setting is the default string length: other shapes look at none of them.
// A duration can be negative, the calendar kinds count up from their epoch.
pub fn convert(
    shape: Shape,
    c: Constant,
    least: Constant,
    greatest: Constant,
    setting: u32,
) -> Option<Constant>
    requires { Bits shape × Counts shape c }
    ensures { result_of result ≡ converted_by shape c least greatest setting }
{
    match shape {
        Shape::Bool => as_bool(c),
        Shape::Int { bits } => as_integer(fits(c, bits, true), c),
        Shape::UInt { bits } => as_integer(fits(c, bits, false), c),
        Shape::Real { bits } => as_real(bits, c),
        Shape::Bytes { bits } => as_integer(fits(c, bits, false), c),
        Shape::Time { bits } => as_count(4, fits(c, bits, true), c),
        Shape::Date { bits } => as_count(6, fits(c, bits, false), c),
        Shape::TimeOfDay { bits } => as_count(5, fits(c, bits, false), c),
        Shape::DateAndTime { bits } => as_count(7, fits(c, bits, false), c),
        Shape::String { length, width } => as_string(length, width, c, setting),
        Shape::Enumeration { .. } => None,
        Shape::Subrange { .. } => as_integer(within(c, least, greatest), c),
        _ => None,
    }
}
