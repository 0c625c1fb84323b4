// The sheet of a file whose types are resolved: counted, and written if it fits.
#![tactic(auto, using(crate::proofs::Fitting::sheets))]

ghost use Rattle.std.specs.Prelude.{◌≤◌, length};
ghost use Rattle.definition.specs.Answers.{room_words};
ghost use Rattle.definition.specs.Sheet.{sheet_with};
ghost use Rattle.definition.specs.Uses.{rank_at};
ghost use Rattle.laws.specs.Puts.{Puts};
ghost use Rattle.sheet_parts.specs.Resolved.{Resolved};
ghost use Rattle.writer.specs.Sheets.{SheetLong, Answers};

use definition::answers::Refusal;
use records::file::File;
use sheet_parts::types::{count_types, put_types};
use sheet_parts::variables::{Both, count_variables, put_variables};

// Where the two sections of variables begin, and where the sheet ends.
#[derive(Clone, Copy)]
pub struct Places {
    pub sections: Both,
    pub end: usize,
}

fn count_sheet(file: &File<'_>, known: &[u32], store: &[u32], room: &mut [u32]) -> Places
    requires { Resolved file.now.source known.now store.now × (room_words file.now.source ≤ length room.old) }
    ensures { SheetLong file.now.source result }
{
    let types = count_types(file, known, store);
    let words = count_variables(file, known, store, room);
    let completed = types + words.value;
    let sections = Both {
        value: types,
        completed,
    };
    Places {
        sections,
        end: completed + words.completed,
    }
}

// The sheet at the front of out, where it fits.
fn put_sheet(
    file: &File<'_>,
    known: &[u32],
    store: &[u32],
    ranks: &[u32],
    room: &mut [u32],
    out: &mut [u32],
    at: Places,
)
    requires { Resolved file.now.source known.now store.now × (room_words file.now.source ≤ length room.old) × SheetLong file.now.source at × (at.end ≤ length out.old) }
    ensures { Puts (sheet_with file.now.source (rank_at ranks.now)) out.old 0 at.end out.new }
{
    put_types(file, known, store, ranks, out);
    put_variables(file, known, store, room, out, at.sections);
}

// The sheet is counted first: a refusal leaves out as it is.
pub fn write_resolved(
    file: &File<'_>,
    known: &[u32],
    store: &[u32],
    ranks: &[u32],
    room: &mut [u32],
    out: &mut [u32],
) -> Result<usize, Refusal>
    requires { Resolved file.now.source known.now store.now × (room_words file.now.source ≤ length room.old) }
    ensures { Answers (sheet_with file.now.source (rank_at ranks.now)) out.old result out.new }
{
    let at = count_sheet(file, known, store, room);
    if out.len() < at.end {
        return Err(Refusal::Short);
    }
    put_sheet(file, known, store, ranks, room, out, at);
    Ok(at.end)
}
