// The words of a reader, each of four bytes, the least first.
ghost use Rattle.std.specs.Prelude.{◌≤◌, length, IfOk};

use crate::unread::Unread;
use std::io::Read;
use vector_io::read_full;

// The next word; None at the end of the input.
fn next_word(reader: &mut impl Read) -> Result<Option<u32>, Unread> {
    let mut four = [0u8; 4];
    match read_full(reader, &mut four)? {
        0 => Ok(None),
        4 => Ok(Some(u32::from_le_bytes(four))),
        _ => Err(Unread::Odd),
    }
}

// How many words there are, the front of `words` after the call. Where there is no room, bytes behind a whole word are as long as a word.
fn fill(reader: &mut impl Read, words: &mut [u32]) -> Result<usize, Unread>
    ensures { IfOk result (λ count. count ≤ length words.new) }
{
    for (i, word) in words.iter_mut().enumerate() {
        let Some(next) = next_word(reader)? else {
            return Ok(i);
        };
        *word = next;
    }
    match next_word(reader) {
        Ok(None) => Ok(words.len()),
        Err(Unread::Failed(error)) => Err(Unread::Failed(error)),
        _ => Err(Unread::Long),
    }
}

// The words up to the end of the input, in the front of `words`.
pub fn read_words<'a>(reader: &mut impl Read, words: &'a mut [u32]) -> Result<&'a [u32], Unread> {
    let count = fill(reader, words)?;
    Ok(&words[..count])
}
