// Numbers and zeros in bytes.
#![tactic(auto, using(crate::proofs::Numbering::numbering))]

ghost use Rattle.std.specs.Prelude.{◌≡◌, ◌+◌, ◌-◌, ◌^◌, ◌<◌, ◌≤◌, length, take, drop};
ghost use Rattle.definition.specs.Base.{unused};
ghost use Rattle.memory_definition.specs.Numbers.{number_from};

// So many bytes as a number, the low byte first.
pub fn number_from(bytes: &[u8], at: usize, count: usize) -> u64
    requires { (count ≤ 8) × (at + count ≤ length bytes.now) }
    ensures is { result ≡ number_from (take count (drop at bytes.now)) }
    ensures small { result < 256 ^ count }
{
    let mut n: u64 = 0;
    for left in (0..count).rev() {
        n = n * 256 + (bytes[at + left] as u64);
    }
    n
}

// Whether all bytes between two places are 0.
pub fn zeros(bytes: &[u8], from: usize, to: usize) -> bool
    requires { (from ≤ to) × (to ≤ length bytes.now) }
    ensures { result ≡ unused (take (to - from) (drop from bytes.now)) }
{
    bytes[from..to].iter().all(|b| *b == 0)
}
