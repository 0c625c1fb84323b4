// One line, compared with what was built at the front of the room.
#![tactic(auto, using(crate::proofs::Matching::matching))]

ghost use Rattle.std.specs.Prelude.{length};
ghost use Rattle.sheet_lines.specs.Compare.{Within};
ghost use Rattle.sheet.specs.Same.{Shown, SameOutcome, SameCompleted};

use build::built::Unbuilt;
use complete::completion::completion;
use definition::layout::NODE_WORDS;
use records::source::Source;
use sheet_lines::compare::line_same;

// Whether words of a sheet are the state, the count and the nodes of what was built: a type's line behind its rank, or a variable's.
pub fn built_same(
    sheet: &[u32],
    at: usize,
    end: usize,
    built: Result<usize, Unbuilt>,
    room: &[u32],
) -> bool
    requires { Within (length sheet.now) at 2 end × Shown built room.now }
    ensures { SameOutcome sheet.now at end built room.now result }
{
    let line = &sheet[at..end];
    match built {
        Ok(e) => line_same(line, &[0, (e / NODE_WORDS) as u32], &room[..e]),
        Err(Unbuilt::None) => line_same(line, &[1, 0], &[]),
        Err(Unbuilt::TooLarge) => line_same(line, &[2, 0], &[]),
        Err(Unbuilt::Wanted(_)) => false,
    }
}

// Whether words of a sheet are the completed line of a variable that was built, which is completed in place.
#[tactic(auto, using(crate::proofs::Matching::completing))]
pub fn completion_same(
    file: &Source<'_>,
    v: u32,
    sheet: &[u32],
    at: usize,
    end: usize,
    built: Result<usize, Unbuilt>,
    room: &mut [u32],
) -> bool
    requires { Within (length sheet.now) at 3 end × Shown built room.old }
    ensures { SameCompleted file.now v sheet.now at end built room.old result }
{
    let line = &sheet[at..end];
    let Ok(e) = built else {
        return line_same(line, &[1, 0, 0], &[]);
    };
    let Some(kind) = completion(file, v, room, 0, e) else {
        return line_same(line, &[1, 0, 0], &[]);
    };
    line_same(line, &[0, kind, (e / NODE_WORDS) as u32], &room[..e])
}
