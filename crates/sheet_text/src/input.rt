// The text of bytes: `long` for too many, refusal 1 for those that don't make whole words, otherwise that of the file.
ghost use Rattle.std.specs.Prelude.{◌≡◌, ◌≤◌, length};
ghost use Rattle.definition.specs.Answers.{cleared};
ghost use Rattle.definition.specs.Program.{words_from, file_text, sheet_text};
ghost use Rattle.laws.specs.Puts.{Puts};
ghost use Rattle.sheet_text.specs.Texts.{most_text, TextRoom, WordRoom, Texts};

use crate::file::{SHEET_WORDS, put_file};
use crate::words::read_words;
use lines::clear::clear;
use text::put::put_bytes;
use text::refusal::{put_long, put_refused};

pub const MOST_BYTES: usize = 32768;
// MOST_BYTES / 4
pub const FILE_WORDS: usize = 8192;
// Ten digits at most for each word of a sheet, and the byte behind it.
pub const MOST_TEXT: usize = 90112;
// What the sheet program lends: 69 levels of 24,576 words, which with the other arrays and what calls take is within a stack of 8 MiB.
pub const ROOM_WORDS: usize = 1695744;

fn clear_both(lines: &mut [u32], room: &mut [u32])
    ensures lines { lines.new ≡ cleared lines.old }
    ensures room { room.new ≡ cleared room.old }
{
    clear(lines);
    clear(room);
}

// `words` is for the file's words, `out` for its sheet.
fn put_words(
    text: &mut [u8],
    bytes: &[u8],
    words: &mut [u32],
    out: &mut [u32],
    lines: &mut [u32],
    room: &mut [u32],
) -> usize
    requires { WordRoom bytes.now (length words.old) × TextRoom (length text.old) (length out.old) }
    ensures text { Puts (file_text (length lines.old) (length room.old) (words_from bytes.now)) text.old 0 result text.new }
    ensures lines { lines.new ≡ cleared lines.old }
    ensures room { room.new ≡ cleared room.old }
{
    let count = read_words(bytes, words);
    put_file(text, &words[..count], out, lines, room)
}

fn put_whole(text: &mut [u8], bytes: &[u8], lines: &mut [u32], room: &mut [u32]) -> usize
    requires { WordRoom bytes.now 8192 × (most_text ≤ length text.old) }
    ensures text { Puts (file_text (length lines.old) (length room.old) (words_from bytes.now)) text.old 0 result text.new }
    ensures lines { lines.new ≡ cleared lines.old }
    ensures room { room.new ≡ cleared room.old }
{
    let mut words = [0u32; FILE_WORDS];
    let mut out = [0u32; SHEET_WORDS];
    put_words(text, bytes, &mut words, &mut out, lines, room)
}

fn put_text(text: &mut [u8], bytes: &[u8], lines: &mut [u32], room: &mut [u32]) -> usize
    requires { most_text ≤ length text.old }
    ensures text { Puts (sheet_text (length lines.old) (length room.old) bytes.now) text.old 0 result text.new }
    ensures lines { lines.new ≡ cleared lines.old }
    ensures room { room.new ≡ cleared room.old }
{
    if bytes.len() > MOST_BYTES {
        clear_both(lines, room);
        return put_long(text);
    }
    if bytes.len() % 4 != 0 {
        clear_both(lines, room);
        return put_refused(text, 1);
    }
    put_whole(text, bytes, lines, room)
}

// The text goes to `printed` first: where `text` is too short for it, nothing of it is written there.
fn print_text(
    bytes: &[u8],
    text: &mut [u8],
    printed: &mut [u8],
    lines: &mut [u32],
    room: &mut [u32],
) -> usize
    requires { length printed.old ≡ most_text }
    ensures text { Texts (sheet_text (length lines.old) (length room.old) bytes.now) text.old result text.new }
    ensures lines { lines.new ≡ cleared lines.old }
    ensures room { room.new ≡ cleared room.old }
{
    let end = put_text(printed, bytes, lines, room);
    if text.len() < end {
        return 0;
    }
    put_bytes(text, 0, &printed[..end])
}

// The text at the front of `text`, and how many bytes it has; 0 where it has more than `text`. It never has more than MOST_TEXT.
pub fn sheet_text(bytes: &[u8], text: &mut [u8], lines: &mut [u32], room: &mut [u32]) -> usize
    ensures text { Texts (sheet_text (length lines.old) (length room.old) bytes.now) text.old result text.new }
    ensures lines { lines.new ≡ cleared lines.old }
    ensures room { room.new ≡ cleared room.old }
{
    let mut printed = [0u8; MOST_TEXT];
    print_text(bytes, text, &mut printed, lines, room)
}
