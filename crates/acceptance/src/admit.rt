// Which words are admitted: a file that is accepted, of which a function asks more.
#![tactic(auto, using(crate::proofs::Admitting::admitting))]

ghost use Rattle.std.specs.Prelude.{◌≡◌, ◌&&◌, leb};
ghost use Rattle.definition.specs.Accept.{need};
ghost use Rattle.definition.specs.Answers.{room_words};
ghost use Rattle.acceptance.specs.Admitted.{refusal_in, Admits};

use crate::accept::{accepted, held};
use crate::work::room_of;
use definition::answers::Refusal;
use records::file::File;

// The accepted file that these words are, where nothing that is asked of it is refused; else its own first refusal, or that of what is asked.
pub fn admit<F: Fn(&File<'_>) -> Result<(), Refusal>>(
    words: &[u32],
    asked: F,
) -> Result<File<'_>, Refusal>
    requires { F.IsAlwaysCallable asked }
    ensures { Admits (F.post asked) words.now result }
{
    let file = accepted(words)?;
    asked(&file)?;
    Ok(file)
}

// Whether there are enough work words: as many as are wanted for lines, and room for two trees of the most nodes for each level.
pub fn enough(file: &File<'_>, wanted: usize, lines: usize, room: usize) -> Result<(), Refusal>
    ensures { refusal_in result ≡ need (leb wanted lines && leb (room_words file.now.source) room) 10 (λ u. 0) }
{
    held(wanted <= lines, Refusal::Short)?;
    held(room_of(file) <= room, Refusal::Short)
}
