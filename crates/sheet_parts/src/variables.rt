// The two sections of variables, of values and of completed initializers: each variable is built once for both of its lines.
#![tactic(auto, using(crate::proofs::Beside::counting))]

ghost use Rattle.std.specs.Prelude.{[], ◌∷◌, ◌++◌, ◌+◌, ◌≤◌, ◌<◌, length};
ghost use Rattle.definition.specs.Layout as Layout;
ghost use Rattle.definition.specs.Answers.{room_words};
ghost use Rattle.definition.specs.Lines.{variable_line, completed_line};
ghost use Rattle.sheet_parts.specs.Line.{ValueLies};
ghost use Rattle.laws.specs.Puts.{Puts};
ghost use Rattle.sheet_parts.specs.Resolved.{Resolved};
ghost use Rattle.sheet_parts.specs.Section.{section_of, LinesLong, SectionsLong, BothRoom, SectionsRoom, PutsBoth};

use crate::line::{Line, put_line, put_value, words_of};
use crate::part::{completed_line, variable_line};
use crate::put::put_word;
use definition::layout::VARIABLES;
use records::file::File;
use records::source::Source;

// A number of words, or a place, for each of the two sections.
#[derive(Clone, Copy)]
pub struct Both {
    pub value: usize,
    pub completed: usize,
}

fn variable_words(file: &File<'_>, known: &[u32], store: &[u32], v: u32, room: &mut [u32]) -> Both
    requires { Resolved file.now.source known.now store.now × (v < Layout.count file.now.source Layout.variables) × (room_words file.now.source ≤ length room.old) }
    ensures { LinesLong file.now.source v result }
{
    let line = variable_line(file, known, store, v, room);
    let slot = completed_line(&file.source, v, line, room);
    Both {
        value: words_of(line, 2),
        completed: words_of(slot, 3),
    }
}

// The words of both sections.
pub fn count_variables(file: &File<'_>, known: &[u32], store: &[u32], room: &mut [u32]) -> Both
    requires { Resolved file.now.source known.now store.now × (room_words file.now.source ≤ length room.old) }
    ensures { SectionsLong file.now.source (Layout.count file.now.source Layout.variables) result }
{
    let many = file.source.count(VARIABLES);
    let mut words = Both {
        value: 1,
        completed: 1,
    };
    for v in 0..many {
        let more = variable_words(file, known, store, v, room);
        words = Both {
            value: words.value + more.value,
            completed: words.completed + more.completed,
        };
    }
    words
}

#[tactic(auto, using(crate::proofs::Beside::putting))]
fn put_completed(
    file: &Source<'_>,
    v: u32,
    line: Line,
    room: &mut [u32],
    out: &mut [u32],
    at: usize,
) -> usize
    requires { ValueLies (variable_line file.now v) line room.old × (at + length (completed_line file.now v) ≤ length out.old) }
    ensures { Puts (completed_line file.now v) out.old at result out.new }
{
    let slot = completed_line(file, v, line, room);
    put_line(out, at, slot, &room[..])
}

// Both lines of a variable, and where they end.
#[tactic(auto, using(crate::proofs::Beside::putting))]
fn put_variable(
    file: &File<'_>,
    known: &[u32],
    store: &[u32],
    v: u32,
    room: &mut [u32],
    out: &mut [u32],
    at: Both,
) -> Both
    requires { Resolved file.now.source known.now store.now × (v < Layout.count file.now.source Layout.variables) × (room_words file.now.source ≤ length room.old) × BothRoom (variable_line file.now.source v) (completed_line file.now.source v) at (length out.old) }
    ensures { PutsBoth (variable_line file.now.source v) (completed_line file.now.source v) out.old at result out.new }
{
    let line = variable_line(file, known, store, v, room);
    let value = put_value(out, at.value, line, &room[..]);
    let completed = put_completed(&file.source, v, line, room, out, at.completed);
    Both { value, completed }
}

// How many lines each section has.
fn put_counts(out: &mut [u32], at: Both, many: u32) -> Both
    requires { BothRoom (many ∷ []) (many ∷ []) at (length out.old) }
    ensures { PutsBoth (many ∷ []) (many ∷ []) out.old at result out.new }
{
    let value = put_word(out, at.value, many);
    let completed = put_word(out, at.completed, many);
    Both { value, completed }
}

// Both sections, the second behind the first.
#[tactic(auto, using(crate::proofs::Beside::both))]
pub fn put_variables(
    file: &File<'_>,
    known: &[u32],
    store: &[u32],
    room: &mut [u32],
    out: &mut [u32],
    at: Both,
) -> usize
    requires { Resolved file.now.source known.now store.now × (room_words file.now.source ≤ length room.old) × SectionsRoom file.now.source at (length out.old) }
    ensures { Puts (section_of (variable_line file.now.source) (Layout.count file.now.source Layout.variables) ++ section_of (completed_line file.now.source) (Layout.count file.now.source Layout.variables)) out.old at.value result out.new }
{
    let many = file.source.count(VARIABLES);
    let mut ends = put_counts(out, at, many);
    for v in 0..many {
        ends = put_variable(file, known, store, v, room, out, ends);
    }
    ends.completed
}
