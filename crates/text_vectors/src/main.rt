// Replays stored runs of the sheet program (vectors/sheets): the bytes that it reads after their count, and those that it prints after theirs, until the input ends.
// The work words are as many as it lends. Prints how many runs were right, and the number of each that was not.
#![tactic(auto)]

use sheet_text::file::SHEET_WORDS;
use sheet_text::input::{MOST_TEXT, ROOM_WORDS, sheet_text};
use std::io;
use vector_io::answers::{judged, print_replayed};
use vector_io::read_counted_bytes;

// More bytes than any stored run reads.
const INPUT_BYTES: usize = 32772;
// More runs than are stored.
const MOST_RUNS: u32 = 1000;

fn is_right(
    bytes: &[u8],
    expected: &[u8],
    text: &mut [u8],
    lines: &mut [u32],
    room: &mut [u32],
) -> bool {
    let end = sheet_text(bytes, text, lines, room);
    &text[..end] == expected
}

fn replay_run(
    rt: &(impl Input + Print),
    k: u32,
    bytes: &mut [u8],
    expected: &mut [u8],
    text: &mut [u8],
    lines: &mut [u32],
    room: &mut [u32],
) -> io::Result<Option<u64>> {
    let Some(bytes) = read_counted_bytes(rt, bytes)? else {
        return Ok(None);
    };
    let Some(expected) = read_counted_bytes(rt, expected)? else {
        return Ok(None);
    };
    let right = is_right(bytes, expected, text, lines, room);
    Ok(Some(judged(rt, right, k)?))
}

fn replay_all(
    rt: &(impl Input + Print),
    bytes: &mut [u8],
    expected: &mut [u8],
    text: &mut [u8],
    lines: &mut [u32],
    room: &mut [u32],
) -> io::Result<()> {
    print_replayed(
        rt,
        MOST_RUNS,
        |k| replay_run(rt, k, bytes, expected, text, lines, room),
    )
}

fn main(rt: HostRuntime) -> io::Result<()> {
    let mut bytes = [0u8; INPUT_BYTES];
    let mut expected = [0u8; MOST_TEXT];
    let mut text = [0u8; MOST_TEXT];
    let mut lines = [0u32; SHEET_WORDS];
    let mut room = [0u32; ROOM_WORDS];
    replay_all(
        &rt,
        &mut bytes,
        &mut expected,
        &mut text,
        &mut lines,
        &mut room,
    )
}
