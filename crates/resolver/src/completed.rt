// The completed initializer of a variable. Work words are lent as two slices, as in trees.rt; they end as 0.
#![tactic(auto, using(crate::proofs::Completing::completing_laws))]

ghost use Rattle.std.specs.Prelude.{◌≡◌, length};
ghost use Rattle.definition.specs.Layout as Layout;
ghost use Rattle.definition.specs.Starting.{variable_outcome};
ghost use Rattle.definition.specs.Answers.{completed_says, cleared, completed_answer, completed_out};
ghost use Rattle.resolver.specs.Trees.{Passed};
ghost use Rattle.resolver.specs.Completed.{WritesCompleted};

use crate::lent::with_lent;
use crate::refusal::admitted;
use crate::trees::{build_tree, write};
use complete::completion::completion;
use definition::answers::{Refusal, Slot};
use definition::layout::VARIABLES;
use driver::told::Owner;
use records::file::File;

// A variable's tree is completed at the front of the room, and goes to the front of out.
fn write_completed(
    file: &File<'_>,
    v: u32,
    out: &mut [u32],
    lines: &mut [u32],
    room: &mut [u32],
) -> Result<Option<Slot>, Refusal>
    requires { Passed file.now.source Layout.variables v (length lines.old) (length room.old) }
    ensures { WritesCompleted file.now.source v (variable_outcome file.now.source v) out.old result out.new }
{
    let end = match build_tree(file, Owner::Variable(v), lines, room) {
        Ok(Some(end)) => end,
        Ok(None) => return Ok(None),
        Err(refusal) => return Err(refusal),
    };
    let Some(kind) = completion(&file.source, v, room, 0, end) else {
        return Ok(None);
    };
    let nodes = write(&room[..], end, out)?;
    Ok(Some(Slot { kind, nodes }))
}

// The same for the accepted file that these words are. The work words are left as they come.
fn slot_answer(
    words: &[u32],
    number: u32,
    out: &mut [u32],
    lines: &mut [u32],
    room: &mut [u32],
) -> Result<Option<Slot>, Refusal>
    ensures answer { completed_says result ≡ completed_answer words.now number (length out.old) (length lines.old) (length room.old) }
    ensures out { out.new ≡ completed_out words.now number out.old (length lines.old) (length room.old) }
{
    let file = admitted(words, VARIABLES, number, lines.len(), room.len())?;
    write_completed(&file, number, out, lines, room)
}

// The kind of a variable's completed initializer, and the tree in its slot, at the front of out.
pub fn completed(
    words: &[u32],
    number: u32,
    out: &mut [u32],
    lines: &mut [u32],
    room: &mut [u32],
) -> Result<Option<Slot>, Refusal>
    ensures answer { completed_says result ≡ completed_answer words.now number (length out.old) (length lines.old) (length room.old) }
    ensures out { out.new ≡ completed_out words.now number out.old (length lines.old) (length room.old) }
    ensures lines { lines.new ≡ cleared lines.old }
    ensures room { room.new ≡ cleared room.old }
{
    with_lent(
        out,
        lines,
        room,
        |out, lines, room| slot_answer(words, number, out, lines, room),
    )
}
