// Start sheets, written and checked, for C.
ghost use Rattle.std.specs.Prelude.{◌≡◌, length};
ghost use Rattle.definition.specs.Answers.{cleared, pass_code, value_code, write_answer, write_out, pass_answer};

// The number of words of a file's start sheet, which stands at the front of out. A refusal stands in the high word and leaves out as it was; lines and room
// end as 0.
#[unsafe(no_mangle)]
pub extern "C" fn wirkesu_write_sheet(
    file: &[u32],
    out: &mut [u32],
    lines: &mut [u32],
    room: &mut [u32],
) -> u64
    ensures says { result ≡ value_code (write_answer file.now (length out.old) (length lines.old) (length room.old)) }
    ensures wrote { out.new ≡ write_out file.now out.old (length lines.old) (length room.old) }
    ensures lines { lines.new ≡ cleared lines.old }
    ensures room { room.new ≡ cleared room.old }
{
    start_values::sheets::wirkesu_write_sheet(file, out, lines, room)
}

// 0 for a sheet that passes, or its refusal; room ends as 0.
#[unsafe(no_mangle)]
pub extern "C" fn wirkesu_check_sheet(file: &[u32], sheet: &[u32], room: &mut [u32]) -> u32
    ensures says { result ≡ pass_code (pass_answer file.now sheet.now (length room.old)) }
    ensures room { room.new ≡ cleared room.old }
{
    start_values::sheets::wirkesu_check_sheet(file, sheet, room)
}
