// Replays stored start memory (vectors/memory): a file after its count; its variables after theirs; and a word behind them; until the input ends. vectors/README.md has the words of a variable.
// Each call has just as many work words as the file wants. Each write is asked for once more with one byte too few, and each read that gives nodes with one word too few of either slice.
// Prints how many answers were right, and for each that was not the numbers of its file, its variable and itself: 0 written, then the reads.
#![tactic(auto)]

mod variable;

use acceptance::work::{line_words, room_words};
use definition::answers::Refusal;
use std::io;
use variable::Variable;
use vector_io::answers::{
    LENT, MOST_LINES, MOST_ROOM, holds, is_lent, judged, print_replayed, replay,
};
use vector_io::{Word, next_word, read_counted, read_words};

// More words than any stored file has, and than any of its nodes or characters; more bytes than any variable has.
const MOST_WORDS: usize = 512;

const MOST_BYTES: usize = 256;
// More files than are stored.
const MOST_FILES: u32 = 1000;
// What bytes are before a call.
const LENT_BYTE: u8 = 0xA5;
// What stands behind the variables of a file.
const SENTINEL: u32 = 0x5E17_1E57;
// A writer's answer for none.
const NO_BYTES: u32 = 0xFFFF_FFFF;

const TOO_SHORT: u32 = 10;

// A stored answer, as the C functions give it: the low word is what was written, the high word a refusal.
#[derive(Clone, Copy)]
struct Stored {
    low: u32,
    high: u32,
}

// The refusal of too few bytes or words.
const SHORT: Stored = Stored {
    low: 0,
    high: TOO_SHORT,
};

fn next_stored(rt: &impl Input) -> io::Result<Stored> {
    let low = next_word(rt)?;
    let high = next_word(rt)?;
    Ok(Stored { low, high })
}

fn is_written(answer: Result<Option<usize>, Refusal>, stored: Stored) -> bool {
    match answer {
        Ok(Some(n)) => (stored.high == 0) & (n == stored.low as usize),
        Ok(None) => (stored.high == 0) & (stored.low == NO_BYTES),
        Err(refusal) => (stored.high == refusal.number()) & (stored.low == 0),
    }
}

// A tree has a node, so that 0 is none.
fn is_read(answer: Result<Option<usize>, Refusal>, stored: Stored) -> bool {
    match answer {
        Ok(Some(n)) => (stored.high == 0) & (stored.low != 0) & (n == stored.low as usize),
        Ok(None) => (stored.high == 0) & (stored.low == 0),
        Err(refusal) => (stored.high == refusal.number()) & (stored.low == 0),
    }
}

// The words of the input are the front of `out`, and the rest is what it was. A count that is above what `out` has is wrong, and as many words are read as `out` has.
fn holds_front<T: Word>(rt: &impl Input, out: &[T], count: usize, lent: T) -> io::Result<bool> {
    let same = holds(rt, out, count.min(out.len()), lent)?;
    Ok(same & (count <= out.len()))
}

// What the writer answers for a variable, and so many bytes of the input in the slice.
fn writes(
    rt: &impl Input,
    variable: &mut Variable<'_>,
    bytes: &mut [u8],
    stored: Stored,
    count: usize,
) -> io::Result<bool> {
    let answer = variable.write(bytes);
    Ok(is_written(answer, stored) & holds_front(rt, bytes, count, LENT_BYTE)?)
}

// One byte too few; where no byte is written, none at all.
fn writes_short(
    rt: &impl Input,
    variable: &mut Variable<'_>,
    stored: Stored,
    count: usize,
) -> io::Result<bool> {
    let mut bytes = [LENT_BYTE; MOST_BYTES];
    let Some(few) = bytes.get_mut(..count.saturating_sub(1)) else {
        return Ok(false);
    };
    let expected = if count == 0 { stored } else { SHORT };
    writes(rt, variable, few, expected, 0)
}

fn replay_write(rt: &impl Input, variable: &mut Variable<'_>) -> io::Result<bool> {
    let mut bytes = [LENT_BYTE; MOST_BYTES];
    let stored = next_stored(rt)?;
    let count = next_word(rt)? as usize;
    let whole = writes(rt, variable, &mut bytes, stored, count)?;
    Ok(whole & writes_short(rt, variable, stored, count)?)
}

// So many words of nodes and of characters are too few, and none of them is written.
fn reads_few(variable: &mut Variable<'_>, bytes: &[u8], node_words: usize, text: usize) -> bool {
    let mut nodes = [LENT; MOST_WORDS];
    let mut characters = [LENT; MOST_WORDS];
    let Some(nodes) = nodes.get_mut(..node_words) else {
        return false;
    };
    let Some(characters) = characters.get_mut(..text) else {
        return false;
    };
    let answer = variable.read(bytes, nodes, characters);
    is_read(answer, SHORT) & is_lent(nodes, LENT) & is_lent(characters, LENT)
}

// One word too few of either, where any is written.
fn reads_short(variable: &mut Variable<'_>, bytes: &[u8], node_words: usize, text: usize) -> bool {
    if node_words == 0 {
        return true;
    }
    let few = reads_few(variable, bytes, node_words - 1, text);
    if text == 0 {
        return few;
    }
    few & reads_few(variable, bytes, node_words, text - 1)
}

// What the reader answers for bytes, and what it leaves in both slices.
fn reads(rt: &impl Input, variable: &mut Variable<'_>, bytes: &[u8]) -> io::Result<bool> {
    let mut nodes = [LENT; MOST_WORDS];
    let mut characters = [LENT; MOST_WORDS];
    let answer = variable.read(bytes, &mut nodes, &mut characters);
    let stored = next_stored(rt)?;
    let node_words = next_word(rt)? as usize;
    let same_nodes = holds_front(rt, &nodes, node_words, LENT)?;
    let text = next_word(rt)? as usize;
    let same_text = holds_front(rt, &characters, text, LENT)?;
    let whole = is_read(answer, stored) & same_nodes & same_text;
    Ok(whole & reads_short(variable, bytes, node_words, text))
}

// Behind the end of the input the count and each byte are 0.
fn replay_read(rt: &impl Input, variable: &mut Variable<'_>) -> io::Result<bool> {
    let mut bytes = [0u8; MOST_BYTES];
    let count = next_word(rt)? as usize;
    let Some(read) = bytes.get_mut(..count) else {
        return Ok(false);
    };
    read_words(rt, read)?;
    reads(rt, variable, read)
}

fn replay_reads(rt: &(impl Input + Print), k: u32, variable: &mut Variable<'_>) -> io::Result<u64> {
    let many = next_word(rt)?;
    replay(many, |i| {
        let right = replay_read(rt, variable)?;
        let place = format_args!("{k}\n{}\n{}", variable.number, u64::from(i) + 1);
        Ok(Some(judged(rt, right, place)?))
    })
}

fn replay_variable(
    rt: &(impl Input + Print),
    k: u32,
    file: &[u32],
    lines: &mut [u32],
    room: &mut [u32],
) -> io::Result<u64> {
    let number = next_word(rt)?;
    let mut variable = Variable {
        file,
        number,
        lines,
        room,
    };
    let written = replay_write(rt, &mut variable)?;
    let one = judged(rt, written, format_args!("{k}\n{number}\n0"))?;
    let read = replay_reads(rt, k, &mut variable)?;
    Ok(one.wrapping_add(read))
}

// Just as many work words as the file wants.
fn replay_variables(
    rt: &(impl Input + Print),
    k: u32,
    file: &[u32],
    lines: &mut [u32],
    room: &mut [u32],
) -> io::Result<u64> {
    let Some(lines) = lines.get_mut(..line_words(file).unwrap_or(0)) else {
        return Ok(0);
    };
    let Some(room) = room.get_mut(..room_words(file).unwrap_or(0)) else {
        return Ok(0);
    };
    let many = next_word(rt)?;
    replay(
        many,
        |_| Ok(Some(replay_variable(rt, k, file, lines, room)?)),
    )
}

fn replay_file(
    rt: &(impl Input + Print),
    k: u32,
    words: &mut [u32],
    lines: &mut [u32],
    room: &mut [u32],
) -> io::Result<Option<u64>> {
    let Some(file) = read_counted(rt, words)? else {
        return Ok(None);
    };
    let right = replay_variables(rt, k, file, lines, room)?;
    Ok((next_word(rt)? == SENTINEL).then_some(right))
}

fn replay_all(
    rt: &(impl Input + Print),
    words: &mut [u32],
    lines: &mut [u32],
    room: &mut [u32],
) -> io::Result<()> {
    print_replayed(rt, MOST_FILES, |k| replay_file(rt, k, words, lines, room))
}

fn main(rt: HostRuntime) -> io::Result<()> {
    let mut words = [0u32; MOST_WORDS];
    let mut lines = [0u32; MOST_LINES];
    let mut room = [0u32; MOST_ROOM];
    replay_all(&rt, &mut words, &mut lines, &mut room)
}
