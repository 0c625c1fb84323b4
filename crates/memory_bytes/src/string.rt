// Strings as bytes: the greatest length, the length, the characters, and zeros behind them.
#![tactic(auto, using(crate::proofs::Spelling::spelling))]

ghost use Rattle.std.specs.Prelude.{◌++◌, ◌+◌, ◌*◌, ◌≤◌, length};
ghost use Rattle.laws.specs.Puts.{Puts};
ghost use Rattle.memory_definition.specs.Numbers.{little_endian, text_bytes, string_bytes, character_bytes};
ghost use Rattle.memory_definition.specs.Forms.{file_characters, characters_from};

use crate::number::{put_number, put_zeros};
use definition::layout::CHARACTERS;
use memory_forms::form::{character_size, text_size};
use records::source::Source;

// A run of the file's characters, each in so many bytes.
fn put_text(
    bytes: &mut [u8],
    at: usize,
    file: &Source<'_>,
    first: u32,
    many: u32,
    size: usize,
) -> usize
    requires { (at + size * many ≤ length bytes.old) }
    ensures { Puts (text_bytes size (characters_from (file_characters file.now) first many)) bytes.old at result bytes.new }
{
    let mut end = at;
    for k in 0..many {
        let character = file.run_word(CHARACTERS, first, k, 0);
        end = put_number(bytes, end, character as u64, size);
    }
    end
}

// The greatest length and the length.
fn put_lengths(bytes: &mut [u8], at: usize, most: u32, many: u32) -> usize
    requires { at + 4 ≤ length bytes.old }
    ensures { Puts (little_endian 2 most ++ little_endian 2 many) bytes.old at result bytes.new }
{
    let end = put_number(bytes, at, most as u64, 2);
    put_number(bytes, end, many as u64, 2)
}

pub fn put_string(
    bytes: &mut [u8],
    at: usize,
    file: &Source<'_>,
    most: u32,
    width: u32,
    first: u32,
    many: u32,
) -> usize
    requires { (many ≤ most) × (at + (4 + character_bytes width * most) ≤ length bytes.old) }
    ensures { Puts (string_bytes most width (characters_from (file_characters file.now) first many)) bytes.old at result bytes.new }
{
    let own = put_lengths(bytes, at, most, many);
    let size = character_size(width);
    let end = put_text(bytes, own, file, first, many, size);
    put_zeros(bytes, end, text_size(width, most - many))
}
