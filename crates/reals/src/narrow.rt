// 64 bits as 32: rounded once to the nearest value of binary32, ties to even.
#![tactic(auto, using(crate::proofs::narrow::Nearest::laws))]

ghost use Rattle.std.specs.Prelude.{◌≡◌, false, ◌+◌, ◌^◌, ◌<◌};
ghost use Rattle.std.specs.Float.Ieee.Nearest.{closest};
ghost use Rattle.memory_definition.specs.Numbers.{narrowed};
ghost use Rattle.reals.specs.Fields.{Fields, single};

use crate::is_nan;
use rounding::nearest;

// The digits above the `below` + 1 lowest, rounded to the nearest: none where all are dropped.
#[tactic(auto, using(crate::proofs::narrow::Nearest::laws))]
fn rounded(size: u64, below: u64) -> u64
    requires { size < 2 ^ 53 }
    ensures { result ≡ closest size (2 ^ (below + 1)) }
{
    if below > 52 {
        return 0;
    }
    nearest(size, below)
}

// Below the field 897 the values are the multiples of the smallest one. From there on the leading digit adds 1 to the field, or 2 where it was rounded up to the next
// power; what comes to the infinity's bits or above is the infinity.
#[tactic(auto, using(crate::proofs::narrow::Single::laws))]
fn magnitude(exp: u64, mant: u64) -> u64
    requires { Fields exp mant }
    ensures { result ≡ single false exp mant }
{
    if exp == 0 {
        return 0;
    }
    let size = 0x10_0000_0000_0000 + mant;
    if exp < 897 {
        return rounded(size, 925 - exp);
    }
    let bits = ((exp - 897) << 23) + rounded(size, 28);
    if bits > 0x7f80_0000 {
        return 0x7f80_0000;
    }
    bits
}

// A NaN is written as the definition has it, without a sign.
#[tactic(auto, using(crate::proofs::narrow::Laws::laws))]
pub fn narrow(bits: u64) -> u32
    ensures { result ≡ narrowed bits }
{
    if is_nan(bits) {
        return 0x7fc0_0000;
    }
    let size = magnitude((bits >> 52) & 0x7ff, bits & 0xf_ffff_ffff_ffff);
    (((bits >> 63) << 31) + size) as u32
}
