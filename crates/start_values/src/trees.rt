// Trees of types and of variables, and completed initializers, for C. A refusal stands in the high word. None, left and refusals leave out as it was; lines and room end
// as 0.
#![tactic(auto, using(crate::proofs::Numbers::numbers))]

ghost use Rattle.std.specs.Prelude.{◌≡◌, length};
ghost use Rattle.definition.specs.Answers.{cleared, value_code, type_tree_answer, type_tree_out, variable_tree_answer, variable_tree_out, completed_answer, completed_out};

use codes::{completed_code, tree_code};
use resolver::completed::completed;
use resolver::trees::{type_tree, variable_tree};

// The number of nodes of a type's default, which stands at the front of out, or 0 for none.
pub fn wirkesu_type_tree(
    file: &[u32],
    number: u32,
    out: &mut [u32],
    lines: &mut [u32],
    room: &mut [u32],
) -> u64
    ensures says { result ≡ value_code (type_tree_answer file.now number (length out.old) (length lines.old) (length room.old)) }
    ensures wrote { out.new ≡ type_tree_out file.now number out.old (length lines.old) (length room.old) }
    ensures lines { lines.new ≡ cleared lines.old }
    ensures room { room.new ≡ cleared room.old }
{
    let answer = type_tree(file, number, out, lines, room);
    tree_code(answer)
}

// The number of nodes of a variable's start value, which stands at the front of out, or 0 for none.
pub fn wirkesu_variable_tree(
    file: &[u32],
    number: u32,
    out: &mut [u32],
    lines: &mut [u32],
    room: &mut [u32],
) -> u64
    ensures says { result ≡ value_code (variable_tree_answer file.now number (length out.old) (length lines.old) (length room.old)) }
    ensures wrote { out.new ≡ variable_tree_out file.now number out.old (length lines.old) (length room.old) }
    ensures lines { lines.new ≡ cleared lines.old }
    ensures room { room.new ≡ cleared room.old }
{
    let answer = variable_tree(file, number, out, lines, room);
    tree_code(answer)
}

// The kind of a variable's completed initializer times 65,536, and the number of nodes in its slot, which stand at the front of out; 0 where it is left.
#[tactic(auto, using(crate::proofs::Completing::completed_numbers))]
pub fn wirkesu_completed(
    file: &[u32],
    number: u32,
    out: &mut [u32],
    lines: &mut [u32],
    room: &mut [u32],
) -> u64
    ensures says { result ≡ value_code (completed_answer file.now number (length out.old) (length lines.old) (length room.old)) }
    ensures wrote { out.new ≡ completed_out file.now number out.old (length lines.old) (length room.old) }
    ensures lines { lines.new ≡ cleared lines.old }
    ensures room { room.new ≡ cleared room.old }
{
    let answer = completed(file, number, out, lines, room);
    completed_code(answer)
}
