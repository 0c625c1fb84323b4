// Refusals 1 and 2: where the file ends, and how many records each section has.
#![tactic(auto, using(records::proofs::Scanning::scans))]

ghost use Rattle.std.specs.Prelude.{◌≡◌, ◌<◌, leb, nat_le};
ghost use Rattle.definition.specs.Base.{every};
ghost use Rattle.definition.specs.Layout.{most_records};
ghost use Rattle.definition.specs.Layout as Layout;
ghost use Rattle.definition.specs.Accept.{ends_right, counts_right};

use definition::layout::{SECTIONS, SETTINGS, most_records};
use records::source::Source;

// Refusal 1: the words end before or after the last section does.
#[tactic(auto, using(records::proofs::Scanning::scans), unfolding(definition::specs::Accept::ends_right))]
pub fn ends_right(file: &Source<'_>) -> bool
    ensures { result ≡ ends_right file.now }
{
    file.end() == file.words().len()
}

fn count_small(file: &Source<'_>, section: usize) -> bool
    requires { section < 14 }
    ensures { result ≡ nat_le (Layout.count file.now section) (most_records section) }
{
    (file.count(section) as usize) <= most_records(section)
}

fn counts_small(file: &Source<'_>) -> bool
    ensures { result ≡ every (λ s. leb (Layout.count file.now s) (most_records s)) 14 }
{
    (0..SECTIONS).all(|s| count_small(file, s))
}

// Refusal 2: a section has more records than stated, or Settings not one.
#[tactic(auto, using(records::proofs::Scanning::scans), unfolding(definition::specs::Accept::counts_right))]
pub fn counts_right(file: &Source<'_>) -> bool
    ensures { result ≡ counts_right file.now }
{
    counts_small(file) & (file.count(SETTINGS) == 1)
}
