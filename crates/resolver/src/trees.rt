// The tree of a type and of a variable. Work words are lent as two slices, one for lines and one for room; they end as 0.
#![tactic(auto, using(crate::proofs::Answering::writing))]

ghost use Rattle.std.specs.Prelude.{◌≡◌, length};
ghost use Rattle.definition.specs.Answers.{tree_says, cleared, type_tree_answer, type_tree_out, variable_tree_answer, variable_tree_out};
ghost use Rattle.driver.specs.Told.{section_in, number_in, outcome_in};
ghost use Rattle.resolver.specs.Trees.{end_in, Stands, WritesTree, Writes, Passed, answer_in, out_in};

use crate::lent::with_lent;
use crate::refusal::admitted;
use build::built::Unbuilt;
use definition::answers::Refusal;
use definition::layout::NODE_WORDS;
use driver::tables::KNOWN_WORDS;
use driver::told::{Owner, outcome};
use records::file::File;
use shapes::classes::shape_classes;
use tree::words::copy;

// What was built as an answer: where a tree ends, none, or refusal 8.
fn tree_end(built: Result<usize, Unbuilt>) -> Result<Option<usize>, Refusal>
    ensures { result ≡ end_in built }
{
    match built {
        Ok(e) => Ok(Some(e)),
        Err(Unbuilt::None) => Ok(None),
        Err(Unbuilt::TooLarge) => Err(Refusal::Large),
        Err(Unbuilt::Wanted(_)) => Ok(None),
    }
}

// An outcome: where its tree ends, which is built at the front of the room.
pub fn build_tree(
    file: &File<'_>,
    owner: Owner,
    lines: &mut [u32],
    room: &mut [u32],
) -> Result<Option<usize>, Refusal>
    requires { Passed file.now.source (section_in owner) (number_in owner) (length lines.old) (length room.old) }
    ensures { Stands (outcome_in file.now.source owner) result room.new }
{
    let mut known = [0u32; KNOWN_WORDS];
    shape_classes(file, &mut known);
    tree_end(outcome(file, &mut known, lines, owner, room))
}

// The tree at the front of the room goes to the front of out: how many nodes it has.
pub fn write(room: &[u32], end: usize, out: &mut [u32]) -> Result<usize, Refusal>
    ensures { WritesTree room.now end out.old result out.new }
{
    copy(room, 0, end, out, 0).ok_or(Refusal::Short)?;
    Ok(end / NODE_WORDS)
}

// An outcome's tree at the front of out.
fn write_outcome(
    file: &File<'_>,
    owner: Owner,
    out: &mut [u32],
    lines: &mut [u32],
    room: &mut [u32],
) -> Result<Option<usize>, Refusal>
    requires { Passed file.now.source (section_in owner) (number_in owner) (length lines.old) (length room.old) }
    ensures { Writes (outcome_in file.now.source owner) out.old result out.new }
{
    let Some(end) = build_tree(file, owner, lines, room)? else {
        return Ok(None);
    };
    let nodes = write(&room[..], end, out)?;
    Ok(Some(nodes))
}

// The same for the accepted file that these words are. The work words are left as they come.
fn tree_answer(
    words: &[u32],
    owner: Owner,
    out: &mut [u32],
    lines: &mut [u32],
    room: &mut [u32],
) -> Result<Option<usize>, Refusal>
    ensures answer { tree_says result ≡ answer_in words.now owner (length out.old) (length lines.old) (length room.old) }
    ensures out { out.new ≡ out_in words.now owner out.old (length lines.old) (length room.old) }
{
    let file = admitted(
        words,
        owner.section(),
        owner.number(),
        lines.len(),
        room.len(),
    )?;
    write_outcome(&file, owner, out, lines, room)
}

// The tree of a type's default, at the front of out.
pub fn type_tree(
    words: &[u32],
    number: u32,
    out: &mut [u32],
    lines: &mut [u32],
    room: &mut [u32],
) -> Result<Option<usize>, Refusal>
    ensures answer { tree_says result ≡ type_tree_answer words.now number (length out.old) (length lines.old) (length room.old) }
    ensures out { out.new ≡ type_tree_out words.now number out.old (length lines.old) (length room.old) }
    ensures lines { lines.new ≡ cleared lines.old }
    ensures room { room.new ≡ cleared room.old }
{
    with_lent(out, lines, room, |out, lines, room| {
        tree_answer(words, Owner::Type(number), out, lines, room)
    })
}

// The tree of a variable's start value, at the front of out.
pub fn variable_tree(
    words: &[u32],
    number: u32,
    out: &mut [u32],
    lines: &mut [u32],
    room: &mut [u32],
) -> Result<Option<usize>, Refusal>
    ensures answer { tree_says result ≡ variable_tree_answer words.now number (length out.old) (length lines.old) (length room.old) }
    ensures out { out.new ≡ variable_tree_out words.now number out.old (length lines.old) (length room.old) }
    ensures lines { lines.new ≡ cleared lines.old }
    ensures room { room.new ≡ cleared room.old }
{
    with_lent(out, lines, room, |out, lines, room| {
        tree_answer(words, Owner::Variable(number), out, lines, room)
    })
}
