// Start memory, written and read, for C. A refusal stands in the high word. None and refusals leave bytes, nodes and characters as they were; lines and room end as 0.
#![tactic(auto, using(crate::proofs::Numbers::numbers))]

ghost use Rattle.std.specs.Prelude.{◌≡◌, length};
ghost use Rattle.definition.specs.Answers.{cleared, value_code};
ghost use Rattle.memory_definition.specs.Answers.{memory_code, write_memory_answer, write_memory_out, read_memory_answer, read_memory_nodes, read_memory_text};

use codes::{memory_code, tree_code};
use memory::read::read_memory;
use memory::write::write_memory;

// The number of bytes of a variable's start memory, which stand at the front of bytes, or 4294967295 for none.
pub fn wirkesu_write_memory(
    file: &[u32],
    number: u32,
    bytes: &mut [u8],
    lines: &mut [u32],
    room: &mut [u32],
) -> u64
    ensures says { result ≡ memory_code (write_memory_answer file.now number (length bytes.old) (length lines.old) (length room.old)) }
    ensures wrote { bytes.new ≡ write_memory_out file.now number bytes.old (length lines.old) (length room.old) }
    ensures lines { lines.new ≡ cleared lines.old }
    ensures room { room.new ≡ cleared room.old }
{
    let answer = write_memory(file, number, bytes, lines, room);
    memory_code(answer)
}

// The number of nodes read from bytes along a variable's tree, which stand at the front of nodes, and their characters at the front of characters, or 0 for none.
pub fn wirkesu_read_memory(
    file: &[u32],
    number: u32,
    bytes: &[u8],
    nodes: &mut [u32],
    characters: &mut [u32],
    lines: &mut [u32],
    room: &mut [u32],
) -> u64
    ensures says { result ≡ value_code (read_memory_answer file.now number bytes.now (length nodes.old) (length characters.old) (length lines.old) (length room.old)) }
    ensures listed { nodes.new ≡ read_memory_nodes file.now number bytes.now nodes.old (length characters.old) (length lines.old) (length room.old) }
    ensures spelt { characters.new ≡ read_memory_text file.now number bytes.now (length nodes.old) characters.old (length lines.old) (length room.old) }
    ensures lines { lines.new ≡ cleared lines.old }
    ensures room { room.new ≡ cleared room.old }
{
    let answer = read_memory(file, number, bytes, nodes, characters, lines, room);
    tree_code(answer)
}
