// Whether an integer type or a subrange holds a number (`fits` of value_range.rs), on a sign and a size instead of an i128.
#![tactic(auto)]

ghost use Rattle.std.specs.Prelude.{◌≡◌, true, eqb};
ghost use Rattle.std.specs.Int.Signed.{le_z};
ghost use Rattle.definition.specs.Accept.{is_bits};
ghost use Rattle.definition.specs.Iec.{in_range, between};
ghost use Rattle.definition.specs.Scalar.{size_of, value_of};
ghost use Rattle.ranges.specs.Table.{depth_of};

use crate::table::for_integer;
use definition::records::Constant;

pub fn negative(c: Constant) -> bool
    ensures { result ≡ eqb c.sign 1 }
{
    c.sign == 1
}

#[tactic(auto, unfolding(definition::specs::Base::joined, definition::specs::Scalar::size_of))]
pub fn size(c: Constant) -> u64
    ensures { result ≡ size_of c }
{
    (c.low as u64) + ((c.high as u64) << 32)
}

// How far a bound lies below 0.
pub fn depth(bound: i64) -> u64
    ensures { result ≡ depth_of bound }
{
    bound.min(0).unsigned_abs()
}

// Whether an integer of some bits holds a constant's number.
#[tactic(auto, using(crate::proofs::range::Laws::laws))]
pub fn fits(c: Constant, bits: u32, signed: bool) -> bool
    requires { is_bits bits ≡ true }
    ensures { result ≡ in_range signed bits (value_of c) }
{
    let Some(bounds) = for_integer(bits, signed) else {
        // not reached: the table has these bits
        return false;
    };
    let (least, greatest) = bounds;
    if negative(c) {
        return size(c) <= depth(least);
    }
    size(c) <= greatest
}

// Whether a constant's number is at most another's. Either may be a zero with a sign.
#[tactic(auto, using(crate::proofs::range::Laws::at_most))]
fn at_most(a: Constant, b: Constant) -> bool
    ensures { result ≡ le_z (value_of a) (value_of b) }
{
    if negative(a) {
        return !negative(b) || size(b) <= size(a);
    }
    if negative(b) {
        return size(a) == 0 && size(b) == 0;
    }
    size(a) <= size(b)
}

// Whether a subrange holds a constant's number: its own bounds decide, and least above greatest holds nothing.
#[tactic(auto, unfolding(definition::specs::Iec::between))]
pub fn within(c: Constant, least: Constant, greatest: Constant) -> bool
    ensures { result ≡ between (value_of least) (value_of greatest) (value_of c) }
{
    at_most(least, c) & at_most(c, greatest)
}
