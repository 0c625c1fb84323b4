// Replays stored files with their sheets (vectors/sheets): a file after its count; what the writer refuses, 0 or 9; the words of a sheet after their count; and changes of one word of it
// after their count: the word's place, what it becomes, and what the check then answers; until the input ends.
// Prints how many answers were right, and for each that was not the numbers of its file and itself: 0 written, 1 checked, then the changes.
#![tactic(auto)]

use definition::answers::Refusal;
use sheet::check::check_sheet;
use std::io;
use vector_io::answers::{LENT, MOST_ROOM, is_lent, judged, print_replayed, replay};
use vector_io::{next_word, read_counted, read_words};
use writer::sheet::write_sheet;

// More words than any stored file or sheet has.
const MOST_WORDS: usize = 4096;
// More files than are stored.
const MOST_FILES: u32 = 1000;

// The slice holds the sheet, and is what it was behind it.
fn holds(out: &[u32], sheet: &[u32]) -> bool {
    out.strip_prefix(sheet)
        .is_some_and(|rest| is_lent(rest, LENT))
}

// Written with so many words, or refused with a number, which is not 0.
fn is_answer(answer: Result<usize, Refusal>, refused: u32, words: usize) -> bool {
    match answer {
        Ok(n) => (refused == 0) & (n == words),
        Err(refusal) => refusal.number() == refused,
    }
}

// What the writer answers for a file, and what it leaves in the slice.
fn writes(
    file: &[u32],
    refused: u32,
    sheet: &[u32],
    out: &mut [u32],
    lines: &mut [u32],
    room: &mut [u32],
) -> bool {
    out.fill(LENT);
    let answer = write_sheet(file, out, lines, room);
    let written = if refused == 0 { sheet } else { &[] };
    is_answer(answer, refused, sheet.len()) & holds(out, written)
}

fn checks(file: &[u32], sheet: &[u32], expected: u32, room: &mut [u32]) -> bool {
    match check_sheet(file, sheet, room) {
        Ok(()) => expected == 0,
        Err(refusal) => refusal.number() == expected,
    }
}

// The next change of a word: checked, and changed back.
fn change_checks(
    rt: &impl Input,
    file: &[u32],
    sheet: &mut [u32],
    room: &mut [u32],
) -> io::Result<bool> {
    let at = next_word(rt)? as usize;
    let word = next_word(rt)?;
    let expected = next_word(rt)?;
    if at >= sheet.len() {
        return Ok(false);
    }
    let right = sheet[at];
    sheet[at] = word;
    let is = checks(file, sheet, expected, room);
    sheet[at] = right;
    Ok(is)
}

fn replay_change(
    rt: &(impl Input + Print),
    file: &[u32],
    k: u32,
    number: u32,
    sheet: &mut [u32],
    room: &mut [u32],
) -> io::Result<Option<u64>> {
    let is = change_checks(rt, file, sheet, room)?;
    Ok(Some(judged(rt, is, format_args!("{k}\n{number}"))?))
}

// A sheet of a file in a circle has no ranks that rise.
fn replay_sheet(
    rt: &(impl Input + Print),
    file: &[u32],
    k: u32,
    refused: u32,
    sheet: &mut [u32],
    out: &mut [u32],
    lines: &mut [u32],
    room: &mut [u32],
) -> io::Result<u64> {
    let written = writes(file, refused, sheet, out, lines, room);
    let expected = if refused == 0 {
        0
    } else {
        Refusal::Ranks.number()
    };
    let checked = checks(file, sheet, expected, room);
    let first = judged(rt, written, format_args!("{k}\n0"))?;
    let second = judged(rt, checked, format_args!("{k}\n1"))?;
    let many = next_word(rt)?;
    let changes = replay(
        many,
        |number| replay_change(rt, file, k, number, sheet, room),
    )?;
    Ok(first.wrapping_add(second).wrapping_add(changes))
}

fn replay_file(
    rt: &(impl Input + Print),
    k: u32,
    words: &mut [u32],
    sheet: &mut [u32],
    out: &mut [u32],
    lines: &mut [u32],
    room: &mut [u32],
) -> io::Result<Option<u64>> {
    let Some(file) = read_counted(rt, words)? else {
        return Ok(None);
    };
    let refused = next_word(rt)?;
    // Behind the end of the input the sheet has no words.
    let count = next_word(rt)? as usize;
    let Some(sheet) = sheet.get_mut(..count) else {
        return Ok(None);
    };
    if !read_words(rt, sheet)? {
        return Ok(None);
    }
    Ok(Some(replay_sheet(rt, file, k, refused, sheet, out, lines, room)?))
}

fn replay_all(
    rt: &(impl Input + Print),
    words: &mut [u32],
    sheet: &mut [u32],
    out: &mut [u32],
    lines: &mut [u32],
    room: &mut [u32],
) -> io::Result<()> {
    print_replayed(
        rt,
        MOST_FILES,
        |k| replay_file(rt, k, words, sheet, out, lines, room),
    )
}

fn main(rt: HostRuntime) -> io::Result<()> {
    let mut words = [0u32; MOST_WORDS];
    let mut sheet = [0u32; MOST_WORDS];
    let mut out = [0u32; MOST_WORDS];
    let mut lines = [0u32; MOST_WORDS];
    let mut room = [0u32; MOST_ROOM];
    replay_all(&rt, &mut words, &mut sheet, &mut out, &mut lines, &mut room)
}
