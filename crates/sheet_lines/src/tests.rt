// What is tested of a sheet before its lines are compared: refusals 11 and 12, and 13 for what no passing sheet has.
#![tactic(auto, using(crate::proofs::Testing::testing))]

ghost use Rattle.std.specs.Prelude.{◌≡◌, ◌≤◌, length};
ghost use Rattle.definition.specs.Accept.{verdict};
ghost use Rattle.definition.specs.Layout as Layout;
ghost use Rattle.definition.specs.Uses.{uses, rising};
ghost use Rattle.sheet_lines.specs.Index.{rank_of};
ghost use Rattle.sheet_lines.specs.Tests.{Lined, Tests};

use crate::find::{Lines, find_lines};
use crate::index::{index_lines, place_word};
use crate::small::types_small;
use definition::answers::Refusal;
use definition::layout::TYPES;
use ranks::rises::ranks_rise;
use records::file::File;
use records::words::word_at;

// No sheet that passes has more words.
const MOST_SHEET_WORDS: usize = 113280000;

// Whether the ranks of a sheet's types rise. They are copied to the index, since a sheet may be longer than a word can say.
#[tactic(auto, using(crate::proofs::Testing::rising_laws))]
fn lines_rise(file: &File<'_>, sheet: &[u32], types: u32, index: &mut [u32]) -> bool
    requires { (verdict file.now.source ≡ 0) × Lined file.now.source sheet.now types (length index.old) }
    ensures { result ≡ rising (Layout.count file.now.source Layout.types) (uses file.now.source) (rank_of sheet.now) }
{
    index_lines(sheet, |at| word_at(sheet, at), types, index);
    ranks_rise(&file.source, &index[..])
}

// What is tested first, of an accepted file's sheet: a refusal, or where its sections begin. The index then leads to each type's line.
pub fn test_sheet(file: &File<'_>, sheet: &[u32], index: &mut [u32]) -> Result<Lines, Refusal>
    requires { (verdict file.now.source ≡ 0) × (Layout.count file.now.source Layout.types ≤ length index.old) }
    ensures { Tests file.now.source sheet.now result index.new }
{
    let lines = find_lines(&file.source, sheet).ok_or(Refusal::Sections)?;
    let types = file.source.count(TYPES);
    if !lines_rise(file, sheet, types, index) {
        return Err(Refusal::Ranks);
    }
    if sheet.len() > MOST_SHEET_WORDS {
        return Err(Refusal::Lines);
    }
    if !types_small(sheet, types) {
        return Err(Refusal::Lines);
    }
    index_lines(sheet, place_word, types, index);
    Ok(lines)
}
