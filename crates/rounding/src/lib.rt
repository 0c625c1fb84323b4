// An integer as a REAL or an LREAL: rounded once to the nearest value, ties to even, and given as the bits of an f64 (the Rust's `as f64` and `as f32`).
#![tactic(auto, using(crate::proofs::Laws::laws))]

ghost use Rattle.std.specs.Prelude.{◌≡◌, ◌+◌, ◌^◌, ◌<◌, false, to_bits};
ghost use Rattle.std.specs.Float.{binary32, binary64};
ghost use Rattle.std.specs.Float.Ieee.{round};
ghost use Rattle.std.specs.Float.Ieee.Nearest.{closest};
ghost use Rattle.definition.specs.Ieee as ieee;

// Both halves and the scaled one are exact, so only the addition rounds.
pub fn lreal(size: u64) -> u64
    ensures { result ≡ to_bits binary64 (round binary64 false size 1) }
{
    let high = ((size >> 32) as f64) * 4294967296.0;
    let low = (size & 0xffff_ffff) as f64;
    f64::to_bits(high + low)
}

// The digits above the `below` + 1 lowest, rounded by the highest digit dropped and by whether any digit below that is set.
#[tactic(auto, using(crate::proofs::Closest::laws))]
pub fn nearest(size: u64, below: u64) -> u64
    requires { below < 63 }
    ensures { result ≡ closest size (2 ^ (below + 1)) }
{
    let kept = size >> (below + 1);
    let half = (size >> below) & 1;
    let sticky = size & ((1 << below) - 1);
    if half == 0 {
        return kept;
    }
    if sticky == 0 {
        return kept + (kept & 1);
    }
    kept + 1
}

// The exponent's field is one too small: the highest bit kept adds 1 to it, and 2 where it was rounded up to the next power.
#[tactic(auto, using(crate::proofs::Single::laws))]
pub fn real(size: u64) -> u64
    ensures { result ≡ to_bits binary64 (round binary32 false size 1) }
{
    if size == 0 {
        return 0;
    }
    let zeros = u64::leading_zeros(size) as u64;
    let kept = nearest(size << zeros, 39);
    ((1085 - zeros) << 52) + (kept << 29)
}

// LREAL has 64 bits, any other Real is a REAL.
fn unsigned(bits: u32, size: u64) -> u64
    ensures { result ≡ ieee.rounded bits false size }
{
    if bits == 64 {
        return lreal(size);
    }
    real(size)
}

pub fn rounded(bits: u32, negative: bool, size: u64) -> u64
    ensures { result ≡ ieee.rounded bits negative size }
{
    let magnitude = unsigned(bits, size);
    if negative {
        return magnitude + 0x8000_0000_0000_0000;
    }
    magnitude
}
