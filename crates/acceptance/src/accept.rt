// Which files are accepted: refusals 1 to 6, each over the whole file before the next.
#![tactic(auto, using(crate::proofs::Accepting::accepting))]

ghost use Rattle.std.specs.Prelude.{◌≡◌, Ok, Err, MatchResult};
ghost use Rattle.definition.specs.Base.{pick};
ghost use Rattle.definition.specs.Accept.{verdict};
ghost use Rattle.definition.specs.Answers.{number_of, acceptance_says, accept_answer};

use definition::answers::Refusal;
use plain::counts::{counts_right, ends_right};
use records::file::File;
use records::source::Source;
use rules::scan::{points_right, words_right};
use shapes::arrays::arrays_small;
use shapes::differ::shapes_differ;

// A test that does not hold is a refusal.
pub fn held(test: bool, refusal: Refusal) -> Result<(), Refusal>
    ensures { result ≡ pick test (Ok tt) (Err refusal) }
{
    if test { Ok(()) } else { Err(refusal) }
}

// The tests in the order of their refusals.
fn tested(file: &Source<'_>) -> Result<(), Refusal>
    ensures { acceptance_says result ≡ accept_answer file.now }
{
    held(ends_right(file), Refusal::Ends)?;
    held(counts_right(file), Refusal::Counts)?;
    held(words_right(file), Refusal::Words)?;
    held(points_right(file), Refusal::Points)?;
    held(shapes_differ(file), Refusal::Alike)?;
    held(arrays_small(file), Refusal::Elements)
}

// Whether these words are a file that is accepted, or its first refusal.
pub fn accept(words: &[u32]) -> Result<(), Refusal>
    ensures { acceptance_says result ≡ accept_answer words.now }
{
    tested(&Source::new(words))
}

// The accepted file that these words are, or its first refusal.
pub fn accepted(words: &[u32]) -> Result<File<'_>, Refusal>
    ensures { MatchResult result (λ file. (file.source ≡ words.now) × (verdict words.now ≡ 0)) (λ refusal. number_of refusal ≡ verdict words.now) }
{
    accept(words)?;
    Ok(File::new(words))
}
