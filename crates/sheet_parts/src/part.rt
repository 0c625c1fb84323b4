// The lines of a sheet: of a type, of a variable, and of a variable's completed initializer.
#![tactic(auto, using(crate::proofs::Parts::parting))]

ghost use Rattle.std.specs.Prelude.{◌≡◌, ◌≤◌, ◌<◌, length};
ghost use Rattle.definition.specs.Layout as Layout;
ghost use Rattle.definition.specs.Answers.{room_words};
ghost use Rattle.definition.specs.Lines.{variable_line, completed_line};
ghost use Rattle.lines.specs.Look.{remembered_of};
ghost use Rattle.build.specs.Built.{index_at, index_in};
ghost use Rattle.sheet_parts.specs.Line.{ValueLies, LineLies, remembered_line};
ghost use Rattle.sheet_parts.specs.Resolved.{Resolved};

use crate::line::{Line, built_line, empty_line, remembered_line};
use build::built::INDEX_AT;
use build::known::Known;
use complete::completion::completion;
use definition::layout::NODE_WORDS;
use driver::work::variable;
use lines::look::look_up;
use records::file::File;
use records::source::Source;

pub fn type_line(known: &[u32], store: &[u32], rank: u32, t: u32) -> Line
    requires { index_at ≤ length known.now }
    ensures { result ≡ remembered_line rank (remembered_of (index_in known.now) store.now t) }
{
    remembered_line(rank, look_up(&known[INDEX_AT..], store, t))
}

// A variable's line, whose nodes are built in the room.
pub fn variable_line(
    file: &File<'_>,
    known: &[u32],
    store: &[u32],
    v: u32,
    room: &mut [u32],
) -> Line
    requires { Resolved file.now.source known.now store.now × (v < Layout.count file.now.source Layout.variables) × (room_words file.now.source ≤ length room.old) }
    ensures { ValueLies (variable_line file.now.source v) result room.new }
{
    let read = Known::new(file, known, &known[INDEX_AT..], store);
    built_line(variable(&read, v, room))
}

// The line of a variable's completed initializer: the nodes of its own line are completed where they lie.
pub fn completed_line(file: &Source<'_>, v: u32, line: Line, room: &mut [u32]) -> Line
    requires { ValueLies (variable_line file.now v) line room.old }
    ensures { LineLies (completed_line file.now v) result room.new }
{
    if line.state != 0 {
        return empty_line(1, 0);
    }
    let at = line.at;
    let nodes = line.nodes;
    match completion(file, v, room, at, at + nodes * NODE_WORDS) {
        Some(kind) => Line {
            first: 0,
            state: kind,
            nodes,
            at,
        },
        None => empty_line(1, 0),
    }
}
