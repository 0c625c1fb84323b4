// A number in decimal, without leading zeros.
#![tactic(auto, using(crate::proofs::Numbers::numbers))]

ghost use Rattle.std.specs.Prelude.{◌≡◌, ◌+◌, ◌≤◌, ◌<◌, length};
ghost use Rattle.definition.specs.Program.{digit as digit_byte, decimal};
ghost use Rattle.laws.specs.Puts.{Puts};

use crate::put::put_byte;

// The byte of a digit.
#[tactic(auto, using(crate::proofs::Numbers::numbers), unfolding(definition::specs::Program::digit))]
fn digit(d: u32) -> u8
    requires { d < 10 }
    ensures { result ≡ digit_byte d }
{
    48 + d as u8
}

// The digits of the quotient by 10, if there are any, then the last digit.
pub fn put_number(text: &mut [u8], at: usize, n: u32) -> usize
    requires { at + length (decimal n) ≤ length text.old }
    ensures { Puts (decimal n) text.old at result text.new }
{
    if n < 10 {
        return put_byte(text, at, digit(n));
    }
    let end = put_number(text, at, n / 10);
    put_byte(text, end, digit(n % 10))
}
