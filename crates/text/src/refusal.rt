// What is printed in place of a sheet. A number has ten digits at most.
#![tactic(auto, using(crate::proofs::Refusing::refusing))]

ghost use Rattle.std.specs.Prelude.{◌≤◌, length};
ghost use Rattle.definition.specs.Program.{long_text, refused_text};
ghost use Rattle.laws.specs.Puts.{Puts};

use crate::line::put_word;
use crate::put::put_bytes;

pub fn put_refused(text: &mut [u8], n: u32) -> usize
    requires { 19 ≤ length text.old }
    ensures { Puts (refused_text n) text.old 0 result text.new }
{
    let end = put_bytes(text, 0, b"refused ");
    put_word(text, end, n, b'\n')
}

pub fn put_long(text: &mut [u8]) -> usize
    requires { 5 ≤ length text.old }
    ensures { Puts long_text text.old 0 result text.new }
{
    put_bytes(text, 0, b"long\n")
}
