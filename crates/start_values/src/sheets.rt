// Start sheets, written and checked, for C.
#![tactic(auto, using(crate::proofs::Numbers::numbers))]

ghost use Rattle.std.specs.Prelude.{◌≡◌, length};
ghost use Rattle.definition.specs.Answers.{cleared, pass_code, value_code, write_answer, write_out, pass_answer};

use codes::{pass_code, words_code};
use sheet::check::check_sheet;
use writer::sheet::write_sheet;

// The number of words of a file's start sheet, which stands at the front of out. A refusal stands in the high word and leaves out as it was; lines and room
// end as 0.
pub fn wirkesu_write_sheet(
    file: &[u32],
    out: &mut [u32],
    lines: &mut [u32],
    room: &mut [u32],
) -> u64
    ensures says { result ≡ value_code (write_answer file.now (length out.old) (length lines.old) (length room.old)) }
    ensures wrote { out.new ≡ write_out file.now out.old (length lines.old) (length room.old) }
    ensures lines { lines.new ≡ cleared lines.old }
    ensures room { room.new ≡ cleared room.old }
{
    let answer = write_sheet(file, out, lines, room);
    words_code(answer)
}

// 0 for a sheet that passes, or its refusal; room ends as 0.
pub fn wirkesu_check_sheet(file: &[u32], sheet: &[u32], room: &mut [u32]) -> u32
    ensures says { result ≡ pass_code (pass_answer file.now sheet.now (length room.old)) }
    ensures room { room.new ≡ cleared room.old }
{
    let answer = check_sheet(file, sheet, room);
    pass_code(answer)
}
