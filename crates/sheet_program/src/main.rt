// The sheet program (document 01, after the examples): reads a file's bytes from standard input and prints its sheet, `long` or a refusal.
#![tactic(auto)]

use sheet_text::file::SHEET_WORDS;
use sheet_text::input::{MOST_TEXT, ROOM_WORDS, sheet_text};
use std::io;
use vector_io::read_full;

// One byte more than a file may have: more need not be read.
const INPUT_BYTES: usize = 32769;

fn print(
    rt: &(impl Input + Print),
    bytes: &mut [u8],
    text: &mut [u8],
    lines: &mut [u32],
    room: &mut [u32],
) -> io::Result<()> {
    let count = read_full(&mut rt.reader(), bytes)?;
    let end = sheet_text(&bytes[..count], text, lines, room);
    rt.write_all(&text[..end])
}

fn main(rt: HostRuntime) -> io::Result<()> {
    let mut bytes = [0u8; INPUT_BYTES];
    let mut text = [0u8; MOST_TEXT];
    // The lines of types never need more words than the sheet itself.
    let mut lines = [0u32; SHEET_WORDS];
    let mut room = [0u32; ROOM_WORDS];
    print(&rt, &mut bytes, &mut text, &mut lines, &mut room)
}
