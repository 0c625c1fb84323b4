// The check of a sheet. The room ends as 0.
#![tactic(auto, using(crate::proofs::Answering::checks))]

ghost use Rattle.std.specs.Prelude.{◌≡◌, ◌+◌, ◌≤◌, length, MatchResult};
ghost use Rattle.definition.specs.Accept.{verdict};
ghost use Rattle.definition.specs.Answers.{number_of, room_words, check_says, pass_code, pass_answer, cleared};
ghost use Rattle.definition.specs.Layout as Layout;
ghost use Rattle.definition.specs.Sheet.{check_answer};
ghost use Rattle.build.specs.Built.{index_at, index_in};
ghost use Rattle.driver.specs.Driver.{Given};
ghost use Rattle.driver.specs.Tables.{Front};
ghost use Rattle.sheet_lines.specs.Tests.{Comparable, Tests};
ghost use Rattle.sheet.specs.Checks.{Checks, room_refused};

use crate::types::types_right;
use crate::variables::variables_right;
use acceptance::admit::{admit, enough};
use build::built::INDEX_AT;
use definition::answers::Refusal;
use driver::tables::KNOWN_WORDS;
use lines::clear::clear;
use records::file::File;
use shapes::classes::shape_classes;
use sheet_lines::find::Lines;
use sheet_lines::tests::test_sheet;

// What is tested before lines are compared, with the index in the tables.
#[tactic(auto, using(crate::proofs::Answering::lending))]
fn test_known(file: &File<'_>, sheet: &[u32], known: &mut [u32]) -> Result<Lines, Refusal>
    requires { (verdict file.now.source ≡ 0) × (index_at + Layout.count file.now.source Layout.types ≤ length known.old) }
    ensures { Front known.old known.new × Tests file.now.source sheet.now result (index_in known.new) }
{
    test_sheet(file, sheet, &mut known[INDEX_AT..])
}

// The lines of a sheet that was tested: 13 at the first that differs.
#[tactic(auto, using(crate::proofs::Answering::comparing))]
fn compared(
    file: &File<'_>,
    known: &[u32],
    sheet: &[u32],
    lines: Lines,
    room: &mut [u32],
) -> Result<(), Refusal>
    requires { Checks file.now.source known.now sheet.now (length room.old) × Comparable file.now.source sheet.now lines (index_in known.now) }
    ensures { pass_code (check_says result) ≡ check_answer file.now.source sheet.now }
{
    if types_right(file, known, sheet, room) && variables_right(file, known, sheet, lines, room) {
        return Ok(());
    }
    Err(Refusal::Lines)
}

// Refusals 11 to 13 of an accepted file's sheet, with the shape classes in the tables.
#[tactic(auto, using(crate::proofs::Answering::answering))]
fn sheet_answer(
    file: &File<'_>,
    known: &mut [u32],
    sheet: &[u32],
    room: &mut [u32],
) -> Result<(), Refusal>
    requires { Given file.now.source known.old (length room.old) × (verdict file.now.source ≡ 0) }
    ensures { pass_code (check_says result) ≡ check_answer file.now.source sheet.now }
{
    let lines = test_known(file, sheet, known)?;
    compared(file, &known[..], sheet, lines, room)
}

#[tactic(auto, using(crate::proofs::Answering::accepting))]
fn accepted_answer(file: &File<'_>, sheet: &[u32], room: &mut [u32]) -> Result<(), Refusal>
    requires { (verdict file.now.source ≡ 0) × (room_words file.now.source ≤ length room.old) }
    ensures { pass_code (check_says result) ≡ check_answer file.now.source sheet.now }
{
    let mut known = [0u32; KNOWN_WORDS];
    shape_classes(file, &mut known);
    sheet_answer(file, &mut known, sheet, room)
}

// The accepted file, where there is enough room, and no lines are lent; else refusals 1 to 6, or 10.
#[tactic(auto)]
fn admitted(words: &[u32], room: usize) -> Result<File<'_>, Refusal>
    ensures { MatchResult result (λ file. (file.source ≡ words.now) × (room_refused words.now room ≡ 0)) (λ refusal. number_of refusal ≡ room_refused words.now room) }
{
    admit(words, |file| enough(file, 0, 0, room))
}

// The first refusal. The room is left as it comes.
fn words_answer(words: &[u32], sheet: &[u32], room: &mut [u32]) -> Result<(), Refusal>
    ensures { check_says result ≡ pass_answer words.now sheet.now (length room.old) }
{
    let file = admitted(words, room.len())?;
    accepted_answer(&file, sheet, room)
}

// Whether a sheet is one of the file's: its lines are what the file says, under ranks that rise along every use.
pub fn check_sheet(words: &[u32], sheet: &[u32], room: &mut [u32]) -> Result<(), Refusal>
    ensures answer { check_says result ≡ pass_answer words.now sheet.now (length room.old) }
    ensures room { room.new ≡ cleared room.old }
{
    let answer = words_answer(words, sheet, room);
    clear(room);
    answer
}
