// Numbers as literals: the constants that nodes hold.
#![tactic(auto, using(crate::proofs::Literals::literals))]

ghost use Rattle.std.specs.Prelude.{◌≡◌, ◌/◌, ◌%◌, ◌^◌, ◌<◌, ◌≤◌};
ghost use Rattle.definition.specs.Records.{constant_of};
ghost use Rattle.memory_definition.specs.Numbers.{literal_read};

use definition::records::Constant;

// By its sign and its size.
pub fn literal(kind: u32, width: u32, sign: u32, size: u64) -> Constant
    ensures { result ≡ constant_of kind sign (size % 2 ^ 32) (size / 2 ^ 32) width }
{
    Constant {
        kind,
        sign,
        low: (size % 4294967296) as u32,
        high: (size / 4294967296) as u32,
        width,
    }
}

// By its bits: the upper half of a signed number's range is below 0.
pub fn literal_read(signed: bool, bits: u32, kind: u32, width: u32, n: u64) -> Constant
    requires { (0 < bits) × (bits ≤ 64) × (n < 2 ^ bits) }
    ensures { result ≡ literal_read signed bits kind width n }
{
    if !signed {
        return literal(kind, width, 0, n);
    }
    let half = 1u64 << (bits - 1);
    if n < half {
        return literal(kind, width, 0, n);
    }
    literal(kind, width, 1, half - (n - half))
}
