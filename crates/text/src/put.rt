// Bytes put into text at a place.
#![tactic(auto, using(crate::proofs::Putting::puts))]

ghost use Rattle.std.specs.Prelude.{[], ◌∷◌, ◌+◌, ◌≤◌, ◌<◌, length};
ghost use Rattle.laws.specs.Puts.{Puts};

pub fn put_byte(text: &mut [u8], at: usize, byte: u8) -> usize
    requires { at < length text.old }
    ensures { Puts (byte ∷ []) text.old at result text.new }
{
    text[at] = byte;
    at + 1
}

// All bytes of another slice.
pub fn put_bytes(text: &mut [u8], at: usize, bytes: &[u8]) -> usize
    requires { at + length bytes.now ≤ length text.old }
    ensures { Puts bytes.now text.old at result text.new }
{
    let end = at + bytes.len();
    text[at..end].copy_from_slice(bytes);
    end
}
