// The text of a file: its sheet, `long` or a refusal.
#![tactic(auto, using(crate::proofs::Filing::files))]

ghost use Rattle.std.specs.Prelude.{◌≡◌, ◌≤◌, length};
ghost use Rattle.definition.specs.Answers.{cleared};
ghost use Rattle.definition.specs.Program.{file_text};
ghost use Rattle.laws.specs.Puts.{Puts};
ghost use Rattle.sheet_text.specs.Texts.{most_text, TextRoom, Refuses};

use definition::answers::Refusal;
use text::refusal::{put_long, put_refused};
use text::sheet::put_sheet;
use writer::refusal::admitted;
use writer::sheet::write_sheet;

// The words of the answer slice: a longer sheet is not printed.
pub const SHEET_WORDS: usize = 8192;

// Refusal 10 is for too few work words, or for a sheet that is too long: only the writer's first refusals tell which.
fn put_refusal(text: &mut [u8], file: &[u32], refusal: Refusal, lines: usize, room: usize) -> usize
    requires { Refuses file.now refusal lines room × (most_text ≤ length text.old) }
    ensures { Puts (file_text lines room file.now) text.old 0 result text.new }
{
    if refusal == Refusal::Short && admitted(file, SHEET_WORDS, lines, room).is_ok() {
        return put_long(text);
    }
    put_refused(text, refusal.number())
}

// `out` is for the sheet.
pub fn put_file(
    text: &mut [u8],
    file: &[u32],
    out: &mut [u32],
    lines: &mut [u32],
    room: &mut [u32],
) -> usize
    requires { TextRoom (length text.old) (length out.old) }
    ensures text { Puts (file_text (length lines.old) (length room.old) file.now) text.old 0 result text.new }
    ensures lines { lines.new ≡ cleared lines.old }
    ensures room { room.new ≡ cleared room.old }
{
    let line_words = lines.len();
    let room_words = room.len();
    match write_sheet(file, out, lines, room) {
        Ok(words) => put_sheet(text, &out[..]),
        Err(refusal) => put_refusal(text, file, refusal, line_words, room_words),
    }
}
