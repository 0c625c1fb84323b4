// A variable's tree as the controller's bytes. Work words are lent as two slices, one for lines and one for room; they end as 0.
ghost use Rattle.std.specs.Prelude.{◌≡◌, ◌<◌, ◌≤◌, length};
ghost use Rattle.definition.specs.Layout as Layout;
ghost use Rattle.definition.specs.Starting.{variable_outcome};
ghost use Rattle.definition.specs.Answers.{cleared};
ghost use Rattle.resolver.specs.Trees.{Passed};
ghost use Rattle.memory_definition.specs.Answers.{memory_says, write_memory_answer, write_memory_out};
ghost use Rattle.memory_forms.specs.Cells.{left};
ghost use Rattle.memory.specs.Trees.{TreeIn, Few, Writable, WritesCells, WritesMemory};

use crate::place::lay_variable;
use definition::answers::Refusal;
use definition::layout::{NODE_WORDS, TREE_WORDS, VARIABLES};
use driver::told::Owner;
use memory_bytes::all::{held_all, narrow_all, size_all, write_all};
use memory_forms::cells::Cells;
use records::file::File;
use records::source::Source;
use resolver::lent::with_lent;
use resolver::refusal::admitted;
use resolver::trees::build_tree;

// Nodes that are held, without a character too wide: as many bytes as their forms have.
fn write_held(
    file: &Source<'_>,
    cells: Cells<'_>,
    bytes: &mut [u8],
) -> Result<Option<usize>, Refusal>
    requires { (length (left cells) ≤ 2048) × Writable file.now (left cells) }
    ensures { WritesCells file.now (left cells.entry) bytes.old result bytes.new }
{
    let size = size_all(file, cells);
    if bytes.len() < size {
        return Err(Refusal::Short);
    }
    write_all(file, cells, bytes);
    Ok(Some(size))
}

// Refusal 14 before 15 before 10.
#[tactic(auto, using(crate::proofs::Writing::cell_writing))]
fn write_cells(
    file: &Source<'_>,
    cells: Cells<'_>,
    bytes: &mut [u8],
) -> Result<Option<usize>, Refusal>
    requires { Few file.now (left cells) }
    ensures { WritesCells file.now (left cells.entry) bytes.old result bytes.new }
{
    if !held_all(file, cells) {
        return Err(Refusal::NotHeld);
    }
    if !narrow_all(file, cells) {
        return Err(Refusal::Wide);
    }
    write_held(file, cells, bytes)
}

// The tree that stands at the front of the room.
fn write_tree(
    file: &File<'_>,
    v: u32,
    room: &[u32],
    nodes: usize,
    bytes: &mut [u8],
) -> Result<Option<usize>, Refusal>
    requires { (v < Layout.count file.now.source Layout.variables) × TreeIn file.now.source v room.now nodes }
    ensures { WritesMemory file.now.source v (variable_outcome file.now.source v) bytes.old result bytes.new }
{
    let mut shapes = [0u32; TREE_WORDS];
    lay_variable(file, v, room, nodes, &mut shapes);
    write_cells(&file.source, Cells::new(room, &shapes, nodes), bytes)
}

// A variable's tree is built at the front of the room.
fn write_variable(
    file: &File<'_>,
    v: u32,
    bytes: &mut [u8],
    lines: &mut [u32],
    room: &mut [u32],
) -> Result<Option<usize>, Refusal>
    requires { Passed file.now.source Layout.variables v (length lines.old) (length room.old) }
    ensures { WritesMemory file.now.source v (variable_outcome file.now.source v) bytes.old result bytes.new }
{
    let Some(end) = build_tree(file, Owner::Variable(v), lines, room)? else {
        return Ok(None);
    };
    write_tree(file, v, &room[..], end / NODE_WORDS, bytes)
}

// The start memory of a variable, at the front of bytes. The work words are left as they come.
fn memory_answer(
    words: &[u32],
    number: u32,
    bytes: &mut [u8],
    lines: &mut [u32],
    room: &mut [u32],
) -> Result<Option<usize>, Refusal>
    ensures answer { memory_says result ≡ write_memory_answer words.now number (length bytes.old) (length lines.old) (length room.old) }
    ensures bytes { bytes.new ≡ write_memory_out words.now number bytes.old (length lines.old) (length room.old) }
{
    let file = admitted(words, VARIABLES, number, lines.len(), room.len())?;
    write_variable(&file, number, bytes, lines, room)
}

// The start memory of a variable, at the front of bytes.
pub fn write_memory(
    words: &[u32],
    number: u32,
    bytes: &mut [u8],
    lines: &mut [u32],
    room: &mut [u32],
) -> Result<Option<usize>, Refusal>
    ensures answer { memory_says result ≡ write_memory_answer words.now number (length bytes.old) (length lines.old) (length room.old) }
    ensures bytes { bytes.new ≡ write_memory_out words.now number bytes.old (length lines.old) (length room.old) }
    ensures lines { lines.new ≡ cleared lines.old }
    ensures room { room.new ≡ cleared room.old }
{
    with_lent(bytes, lines, room, |bytes, lines, room| {
        memory_answer(words, number, bytes, lines, room)
    })
}
