// What is refused before an answer is worked out.
ghost use Rattle.std.specs.Prelude.{◌≡◌, ◌<◌, ltb, MatchResult};
ghost use Rattle.acceptance.specs.Admitted.{refusal_in};
ghost use Rattle.definition.specs.Accept.{need};
ghost use Rattle.definition.specs.Layout as Layout;
ghost use Rattle.definition.specs.Answers.{number_of, enough, refused_tree};

use acceptance::accept::held;
use acceptance::admit::{admit, enough};
use acceptance::work::lines_of;
use definition::answers::Refusal;
use records::file::File;

// What is asked of an accepted file: that it has the record, and that there are enough work words.
fn asked(
    file: &File<'_>,
    section: usize,
    number: u32,
    lines: usize,
    room: usize,
) -> Result<(), Refusal>
    requires { section < 14 }
    ensures { refusal_in result ≡ need (ltb number (Layout.count file.now.source section)) 7 (λ u. need (enough file.now.source lines room) 10 (λ w. 0)) }
{
    held(number < file.source.count(section), Refusal::Missing)?;
    enough(file, lines_of(file), lines, room)
}

// The accepted file, where it has the asked record and there are enough work words; else refusals 1 to 7, or 10.
pub fn admitted(
    words: &[u32],
    section: usize,
    number: u32,
    lines: usize,
    room: usize,
) -> Result<File<'_>, Refusal>
    requires { section < 14 }
    ensures { MatchResult result
        (λ file. (file.source ≡ words.now) × (refused_tree words.now (ltb number (Layout.count words.now section)) lines room ≡ 0))
        (λ refusal. number_of refusal ≡ refused_tree words.now (ltb number (Layout.count words.now section)) lines room) }
{
    admit(words, |file| asked(file, section, number, lines, room))
}
