// Numbers as bytes, the low byte first.
#![tactic(auto, using(crate::proofs::Numbering::numbering))]

ghost use Rattle.std.specs.Prelude.{◌+◌, ◌≤◌, length, replicate};
ghost use Rattle.laws.specs.Puts.{Puts};
ghost use Rattle.memory_definition.specs.Numbers.{little_endian};
ghost use Rattle.memory_bytes.specs.Flipped.{flipped};
ghost use Rattle.memory_bytes.specs.Turned.{TurnedBy};

use text::put::put_byte;

// So many bytes of a number, each as it is turned.
fn put_each<F: Fn(u8) -> u8>(bytes: &mut [u8], at: usize, n: u64, count: usize, turn: F) -> usize
    requires room { at + count ≤ length bytes.old }
    requires pre { F.IsAlwaysCallable turn }
    ensures { TurnedBy (F.post turn) count n bytes.old at result bytes.new }
{
    let mut end = at;
    let mut rest = n;
    for _ in 0..count {
        let byte = turn((rest % 256) as u8);
        end = put_byte(bytes, end, byte);
        rest /= 256;
    }
    end
}

pub fn put_number(bytes: &mut [u8], at: usize, n: u64, count: usize) -> usize
    requires { at + count ≤ length bytes.old }
    ensures { Puts (little_endian count n) bytes.old at result bytes.new }
{
    put_each(bytes, at, n, count, |byte| byte)
}

// With every bit turned round: in two's complement these are the bytes of the number that is one more, below 0.
pub fn put_flipped(bytes: &mut [u8], at: usize, n: u64, count: usize) -> usize
    requires { at + count ≤ length bytes.old }
    ensures { Puts (flipped count n) bytes.old at result bytes.new }
{
    put_each(bytes, at, n, count, |byte| 255 - byte)
}

pub fn put_zeros(bytes: &mut [u8], at: usize, count: usize) -> usize
    requires { at + count ≤ length bytes.old }
    ensures { Puts (replicate count 0) bytes.old at result bytes.new }
{
    let end = at + count;
    bytes[at..end].fill(0);
    end
}
