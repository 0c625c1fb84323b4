// The start sheet. Work words are lent as two slices, one for lines and one for room; they end as 0.
#![tactic(auto, using(crate::proofs::Whole::whole))]

ghost use Rattle.std.specs.Prelude.{◌≡◌, length};
ghost use Rattle.definition.specs.Layout as Layout;
ghost use Rattle.definition.specs.Answers.{sheet_says, cleared, write_answer, write_out};
ghost use Rattle.definition.specs.Sheet.{sheet_with};
ghost use Rattle.definition.specs.Uses.{rank_at};
ghost use Rattle.driver.specs.Driver.{Given};
ghost use Rattle.writer.specs.Sheets.{Answers, AnswersRanked, Passed, LowestRanks};

use crate::refusal::admitted;
use crate::resolved::write_resolved;
use definition::answers::Refusal;
use definition::layout::TYPES;
use driver::every::resolve_types;
use driver::tables::KNOWN_WORDS;
use ranks::lowest::lowest_ranks;
use records::file::File;
use resolver::lent::with_lent;
use shapes::classes::shape_classes;

// A file has at most 1,024 types.
const RANK_WORDS: usize = 1024;

// Every type is resolved first. A store that is too short for the lines of types is too short for the sheet.
fn write_given(
    file: &File<'_>,
    known: &mut [u32],
    ranks: &[u32],
    out: &mut [u32],
    lines: &mut [u32],
    room: &mut [u32],
) -> Result<usize, Refusal>
    requires { Given file.now.source known.old (length room.old) × Passed file.now.source (length out.old) (length lines.old) (length room.old) × LowestRanks file.now.source ranks.now }
    ensures { Answers (sheet_with file.now.source (rank_at ranks.now)) out.old result out.new }
{
    resolve_types(file, known, lines, room).ok_or(Refusal::Short)?;
    write_resolved(file, &known[..], &lines[..], ranks, room, out)
}

fn write_ranked(
    file: &File<'_>,
    ranks: &[u32],
    out: &mut [u32],
    lines: &mut [u32],
    room: &mut [u32],
) -> Result<usize, Refusal>
    requires { Passed file.now.source (length out.old) (length lines.old) (length room.old) × LowestRanks file.now.source ranks.now }
    ensures { Answers (sheet_with file.now.source (rank_at ranks.now)) out.old result out.new }
{
    let mut known = [0u32; KNOWN_WORDS];
    shape_classes(file, &mut known);
    write_given(file, &mut known, ranks, out, lines, room)
}

// The lowest ranks, in lent words, or refusal 9.
fn write_lowest(
    file: &File<'_>,
    ranks: &mut [u32],
    out: &mut [u32],
    lines: &mut [u32],
    room: &mut [u32],
) -> Result<usize, Refusal>
    requires { Passed file.now.source (length out.old) (length lines.old) (length room.old) × (length ranks.old ≡ Layout.count file.now.source Layout.types) }
    ensures { AnswersRanked file.now.source out.old result out.new }
{
    match lowest_ranks(file, ranks) {
        Ok(()) => write_ranked(file, &ranks[..], out, lines, room),
        Err(circle) => Err(Refusal::from(circle)),
    }
}

fn write_passed(
    file: &File<'_>,
    out: &mut [u32],
    lines: &mut [u32],
    room: &mut [u32],
) -> Result<usize, Refusal>
    requires { Passed file.now.source (length out.old) (length lines.old) (length room.old) }
    ensures { AnswersRanked file.now.source out.old result out.new }
{
    let many = file.source.count(TYPES) as usize;
    let mut ranks = [0u32; RANK_WORDS];
    write_lowest(file, &mut ranks[..many], out, lines, room)
}

// The sheet or the first refusal. The work words are left as they come.
fn sheet_answer(
    words: &[u32],
    out: &mut [u32],
    lines: &mut [u32],
    room: &mut [u32],
) -> Result<usize, Refusal>
    ensures answer { sheet_says result ≡ write_answer words.now (length out.old) (length lines.old) (length room.old) }
    ensures out { out.new ≡ write_out words.now out.old (length lines.old) (length room.old) }
{
    let file = admitted(words, out.len(), lines.len(), room.len())?;
    write_passed(&file, out, lines, room)
}

// The start sheet of a file, at the front of out.
pub fn write_sheet(
    words: &[u32],
    out: &mut [u32],
    lines: &mut [u32],
    room: &mut [u32],
) -> Result<usize, Refusal>
    ensures answer { sheet_says result ≡ write_answer words.now (length out.old) (length lines.old) (length room.old) }
    ensures out { out.new ≡ write_out words.now out.old (length lines.old) (length room.old) }
    ensures lines { lines.new ≡ cleared lines.old }
    ensures room { room.new ≡ cleared room.old }
{
    with_lent(
        out,
        lines,
        room,
        |out, lines, room| sheet_answer(words, out, lines, room),
    )
}
