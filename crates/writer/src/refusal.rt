// What is refused before the ranks are known.
#![tactic(auto, using(crate::proofs::Refusing::refusing))]

ghost use Rattle.std.specs.Prelude.{◌≡◌, MatchResult};
ghost use Rattle.acceptance.specs.Admitted.{refusal_in};
ghost use Rattle.definition.specs.Accept.{need};
ghost use Rattle.definition.specs.Answers.{number_of, enough_sheet, write_refused};

use acceptance::admit::{admit, enough};
use acceptance::work::lines_of;
use definition::answers::Refusal;
use records::file::File;

// What is asked of an accepted file is enough work words: the lines of types never need more words than the sheet itself.
fn asked(file: &File<'_>, out: usize, lines: usize, room: usize) -> Result<(), Refusal>
    ensures { refusal_in result ≡ need (enough_sheet file.now.source out lines room) 10 (λ u. 0) }
{
    enough(file, out.min(lines_of(file)), lines, room)
}

// The accepted file, where there are enough work words; else refusals 1 to 6, or 10.
pub fn admitted(words: &[u32], out: usize, lines: usize, room: usize) -> Result<File<'_>, Refusal>
    ensures { MatchResult result (λ file. (file.source ≡ words.now) × (write_refused words.now out lines room ≡ 0)) (λ refusal. number_of refusal ≡ write_refused words.now out lines room) }
{
    admit(words, |file| asked(file, out, lines, room))
}
