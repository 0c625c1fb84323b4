// Nodes and characters read from bytes, along the parts of a variable's own tree. Work words are lent as two slices, one for lines and one for room; they end as 0.
ghost use Rattle.std.specs.Prelude.{◌≡◌, ◌<◌, length};
ghost use Rattle.definition.specs.Layout as Layout;
ghost use Rattle.definition.specs.Starting.{variable_outcome};
ghost use Rattle.definition.specs.Answers.{cleared, tree_says};
ghost use Rattle.resolver.specs.Trees.{Passed};
ghost use Rattle.memory_definition.specs.Answers.{read_memory_answer, read_memory_nodes, read_memory_text};
ghost use Rattle.memory_forms.specs.Cells.{left};
ghost use Rattle.memory_nodes.specs.All.{Written};
ghost use Rattle.memory.specs.Trees.{TreeIn, Few, ReadsCells, ReadsMemory};

use crate::place::lay_variable;
use definition::answers::Refusal;
use definition::layout::{NODE_WORDS, TREE_WORDS, VARIABLES};
use driver::told::Owner;
use lines::clear::clear;
use memory_forms::cells::Cells;
use memory_nodes::all::{read_all, readable_all, text_count};
use records::file::File;
use records::source::Source;
use resolver::refusal::admitted;
use resolver::trees::build_tree;

// Bytes that the nodes are written as.
fn read_held(
    file: &Source<'_>,
    cells: Cells<'_>,
    bytes: &[u8],
    nodes: &mut [u32],
    characters: &mut [u32],
) -> Result<Option<usize>, Refusal>
    requires { Written file.now (left cells) bytes.now }
    ensures { ReadsCells file.now (left cells.entry) bytes.now nodes.old characters.old result nodes.new characters.new }
{
    let many = cells.len();
    if nodes.len() < many * NODE_WORDS {
        return Err(Refusal::Short);
    }
    let text = text_count(file, cells, bytes);
    if characters.len() < text {
        return Err(Refusal::Short);
    }
    read_all(file, cells, bytes, nodes, characters);
    Ok(Some(many))
}

// Refusal 14 before 10 for either slice.
#[tactic(auto, using(crate::proofs::Reading::cell_reading))]
fn read_cells(
    file: &Source<'_>,
    cells: Cells<'_>,
    bytes: &[u8],
    nodes: &mut [u32],
    characters: &mut [u32],
) -> Result<Option<usize>, Refusal>
    requires { Few file.now (left cells) }
    ensures { ReadsCells file.now (left cells.entry) bytes.now nodes.old characters.old result nodes.new characters.new }
{
    if readable_all(file, cells, bytes) {
        return read_held(file, cells, bytes, nodes, characters);
    }
    Err(Refusal::NotHeld)
}

// Along the tree that stands at the front of the room.
fn read_tree(
    file: &File<'_>,
    v: u32,
    room: &[u32],
    many: usize,
    bytes: &[u8],
    nodes: &mut [u32],
    characters: &mut [u32],
) -> Result<Option<usize>, Refusal>
    requires { (v < Layout.count file.now.source Layout.variables) × TreeIn file.now.source v room.now many }
    ensures { ReadsMemory file.now.source v (variable_outcome file.now.source v) bytes.now nodes.old characters.old result nodes.new characters.new }
{
    let mut shapes = [0u32; TREE_WORDS];
    lay_variable(file, v, room, many, &mut shapes);
    let cells = Cells::new(room, &shapes, many);
    read_cells(&file.source, cells, bytes, nodes, characters)
}

// A variable's tree is built at the front of the room.
fn read_variable(
    file: &File<'_>,
    v: u32,
    bytes: &[u8],
    nodes: &mut [u32],
    characters: &mut [u32],
    lines: &mut [u32],
    room: &mut [u32],
) -> Result<Option<usize>, Refusal>
    requires { Passed file.now.source Layout.variables v (length lines.old) (length room.old) }
    ensures { ReadsMemory file.now.source v (variable_outcome file.now.source v) bytes.now nodes.old characters.old result nodes.new characters.new }
{
    let Some(end) = build_tree(file, Owner::Variable(v), lines, room)? else {
        return Ok(None);
    };
    read_tree(
        file,
        v,
        &room[..],
        end / NODE_WORDS,
        bytes,
        nodes,
        characters,
    )
}

// How many nodes were read, which stand at the front of nodes, and their strings' characters at the front of characters. The work words are left as they come.
fn tree_answer(
    words: &[u32],
    number: u32,
    bytes: &[u8],
    nodes: &mut [u32],
    characters: &mut [u32],
    lines: &mut [u32],
    room: &mut [u32],
) -> Result<Option<usize>, Refusal>
    ensures answer { tree_says result ≡ read_memory_answer words.now number bytes.now (length nodes.old) (length characters.old) (length lines.old) (length room.old) }
    ensures nodes { nodes.new ≡ read_memory_nodes words.now number bytes.now nodes.old (length characters.old) (length lines.old) (length room.old) }
    ensures text { characters.new ≡ read_memory_text words.now number bytes.now (length nodes.old) characters.old (length lines.old) (length room.old) }
{
    let file = admitted(words, VARIABLES, number, lines.len(), room.len())?;
    read_variable(&file, number, bytes, nodes, characters, lines, room)
}

// How many nodes were read, which stand at the front of nodes, and their strings' characters at the front of characters.
pub fn read_memory(
    words: &[u32],
    number: u32,
    bytes: &[u8],
    nodes: &mut [u32],
    characters: &mut [u32],
    lines: &mut [u32],
    room: &mut [u32],
) -> Result<Option<usize>, Refusal>
    ensures answer { tree_says result ≡ read_memory_answer words.now number bytes.now (length nodes.old) (length characters.old) (length lines.old) (length room.old) }
    ensures nodes { nodes.new ≡ read_memory_nodes words.now number bytes.now nodes.old (length characters.old) (length lines.old) (length room.old) }
    ensures text { characters.new ≡ read_memory_text words.now number bytes.now (length nodes.old) characters.old (length lines.old) (length room.old) }
    ensures lines { lines.new ≡ cleared lines.old }
    ensures room { room.new ≡ cleared room.old }
{
    let answer = tree_answer(words, number, bytes, nodes, characters, lines, room);
    clear(lines);
    clear(room);
    answer
}
