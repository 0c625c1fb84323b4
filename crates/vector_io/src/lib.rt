// What programs read: the bytes of a reader, and words from standard input.
#![tactic(auto)]

pub mod answers;

ghost use Rattle.std.specs.Prelude.{◌≡◌, ℕ, ◌%◌, ◌<◌, ◌≤◌, false, length, drop, IfOk, IfSome};
ghost use Rattle.std.specs.Io.{ReadsAtMost};

use std::io;
use std::io::Read;

// What a word of the input is read as.
pub trait Word: Copy + PartialEq {
    fn of(word: u32) -> Self;
}

impl Word for u32 {
    fn of(word: u32) -> u32
        ensures { result ≡ word }
    {
        word
    }
}

// The low eight bits.
impl Word for u8 {
    fn of(word: u32) -> u8
        ensures { result ≡ word % 256 }
    {
        (word % 256) as u8
    }
}

// Reads until `bytes` are full or the input ends, and answers how many bytes it read.
pub fn read_full(reader: &mut impl Read, bytes: &mut [u8]) -> io::Result<usize>
    ensures { ReadsAtMost result bytes.new }
{
    let room = bytes.len();
    let mut rest = bytes;
    while !rest.is_empty() {
        let n = reader.read(rest)?;
        if n == 0 {
            break;
        }
        rest = &mut rest[n..];
    }
    Ok(room - rest.len())
}

// The next word, of four bytes, the least first; None where the input ends before it does.
pub fn read_word(rt: &impl Input) -> io::Result<Option<u32>> {
    let mut four = [0u8; 4];
    let count = read_full(&mut rt.reader(), &mut four)?;
    if count < 4 {
        return Ok(None);
    }
    Ok(Some(u32::from_le_bytes(four)))
}

// The next word, or 0 behind the end of the input.
pub fn next_word(rt: &impl Input) -> io::Result<u32> {
    Ok(read_word(rt)?.unwrap_or(0))
}

// Fills `words`; false where the input ends first, and then the words from some place on are what they were.
pub fn read_words<T: Word>(rt: &impl Input, words: &mut [T]) -> io::Result<bool>
    ensures { IfOk result
        (λ full. full ≡ false → (k : ℕ) × (k < length words.old) × (drop k words.new ≡ drop k words.old)) }
{
    for word in words.iter_mut() {
        let Some(next) = read_word(rt)? else {
            return Ok(false);
        };
        *word = T::of(next);
    }
    Ok(true)
}

// A count, and the front of a slice that `fill` says it has filled with so many; None where the input ends first or there is no room.
fn read_part<'a, T, F: FnOnce(&mut [T]) -> io::Result<bool>>(
    rt: &impl Input,
    words: &'a mut [T],
    fill: F,
) -> io::Result<Option<&'a mut [T]>>
    requires { F.IsAlwaysCallable fill }
    ensures { IfOk result (λ read. IfSome read (λ front. length front.now ≤ length words.old)) }
{
    let Some(count) = read_word(rt)? else {
        return Ok(None);
    };
    let Some(front) = words.get_mut(..count as usize) else {
        return Ok(None);
    };
    if fill(front)? {
        return Ok(Some(front));
    }
    Ok(None)
}

// A count and then so many words, which become the front of `words`; None where the input ends first or there is no room.
pub fn read_counted<'a, T: Word>(
    rt: &impl Input,
    words: &'a mut [T],
) -> io::Result<Option<&'a mut [T]>>
    ensures { IfOk result (λ read. IfSome read (λ front. length front.now ≤ length words.old)) }
{
    read_part(rt, words, |front| read_words(rt, front))
}

// The same with so many bytes behind the count.
pub fn read_counted_bytes<'a>(
    rt: &impl Input,
    bytes: &'a mut [u8],
) -> io::Result<Option<&'a mut [u8]>>
    ensures { IfOk result (λ read. IfSome read (λ front. length front.now ≤ length bytes.old)) }
{
    read_part(
        rt,
        bytes,
        |front| Ok(read_full(&mut rt.reader(), front)? == front.len()),
    )
}
