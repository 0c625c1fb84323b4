// Links, and records by their name.
#![tactic(auto, using(crate::proofs::named::Laws::laws))]

ghost use Rattle.std.specs.Prelude.{◌≡◌, ◌+◌, ◌^◌, ◌<◌};
ghost use Rattle.definition.specs.Layout as Layout;
ghost use Rattle.definition.specs.Places.{first_named};
ghost use Rattle.places.specs.Links.{link_of};

use crate::block::Run;
use records::source::Source;

// The record that a link leads to: a link is 1 plus its number, or 0 for none.
pub fn led_to(link: u32) -> Option<u32>
    ensures { link_of result ≡ link }
{
    link.checked_sub(1)
}

// A record, or none, as a link.
pub fn link_to(number: Option<u32>) -> u32
    requires { link_of number < 2 ^ 32 }
    ensures { result ≡ link_of number }
{
    match number {
        Some(n) => n + 1,
        None => 0,
    }
}

// The record that word `place` of another leads to.
pub fn linked(file: &Source<'_>, section: usize, number: u32, place: usize) -> Option<u32>
    requires { (section < 14) × (place < 16) }
    ensures is { link_of result ≡ Layout.word file.now section number place }
    ensures near { link_of result < 2 ^ 32 }
{
    led_to(file.word(section, number, place))
}

// The first record of a run that has a name.
pub fn first_named(file: &Source<'_>, section: usize, name: u32, run: Run) -> Option<u32>
    requires { (section < 14) × (run.first + run.count < 2 ^ 32) }
    ensures { link_of result ≡ first_named file.now section name run.first run.count }
{
    (run.first..run.first + run.count).find(|n| file.word(section, *n, 0) == name)
}
