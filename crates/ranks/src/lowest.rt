// The lowest ranks that rise along every use, or that there are none because uses run in a circle (refusal 9).
// A type is ranked after all that it uses. A look at its uses ends with its rank, or with the ranking of another type: two looks for each type at most.
#![tactic(auto, using(crate::proofs::Searching::typing))]

ghost use Rattle.std.specs.Prelude.{◌≡◌, ◌+◌, ◌<◌, ◌≤◌, length};
ghost use Rattle.definition.specs.Layout as Layout;
ghost use Rattle.definition.specs.Uses.{ranks_of};
ghost use Rattle.ranks.specs.Lowest.{Found, many, in_progress, unknown, Unknowns, Reached, Upto, Tells, Done, Ends};

use crate::above::raised;
use lines::clear::clear;
use records::file::File;
use records::source::Source;

// The word of a type is UNKNOWN and its number, then IN_PROGRESS, then its rank, which is lower than both.
const IN_PROGRESS: u32 = 1024;

const UNKNOWN: u32 = 2048;

// There are no ranks: uses run in a circle.
#[derive(Clone, Copy)]
pub struct Circle;

// What the words of the types that a type uses say of its own.
#[derive(Clone, Copy)]
pub enum Next {
    Rank(u32),
    First(u32),
}

// No type is known.
#[tactic(auto, using(crate::proofs::Searching::forgetting))]
fn forget(ranks: &mut [u32])
    requires { length ranks.old ≤ in_progress }
    ensures { Unknowns (length ranks.old) ranks.new }
{
    for (i, word) in ranks.iter_mut().enumerate() {
        *word = UNKNOWN + i as u32;
    }
}

// The highest word of the used types decides: a type that is unknown has to be ranked first.
// Uses run in a circle where one is in progress, or where the rank would be as high as there are types.
#[tactic(auto, using(crate::proofs::Searching::telling))]
fn next_of(file: &Source<'_>, ranks: &[u32], t: u32) -> Result<Next, Circle>
    requires { Reached file.now t in_progress ranks.now }
    ensures { Tells file.now t ranks.now result }
{
    let high = raised(file, ranks, t);
    if high < ranks.len() {
        return Ok(Next::Rank(high as u32));
    }
    if high > UNKNOWN as usize {
        return Ok(Next::First((high - UNKNOWN as usize - 1) as u32));
    }
    Err(Circle)
}

// An unknown type is ranked, behind all that it uses.
fn rank_type(file: &Source<'_>, ranks: &mut [u32], t: u32) -> Result<(), Circle>
    requires { Reached file.now t (unknown t) ranks.old }
    ensures { Ends file.now (Done file.now t ranks.old ranks.new) result }
{
    ranks[t as usize] = IN_PROGRESS;
    loop {
        let next = next_of(file, &ranks[..], t)?;
        match next {
            Next::Rank(r) => {
                ranks[t as usize] = r;
                return Ok(());
            }
            Next::First(u) => rank_type(file, ranks, u)?,
        }
    }
}

// The next type, which is ranked already if a type before it led to it.
#[tactic(auto, using(crate::proofs::Searching::nexts))]
fn rank_next(file: &Source<'_>, ranks: &mut [u32], t: u32) -> Result<(), Circle>
    requires { Upto file.now t ranks.old × (t < length ranks.old) }
    ensures { Ends file.now (Upto file.now (t + 1) ranks.new) result }
{
    if ranks[t as usize] < UNKNOWN {
        return Ok(());
    }
    rank_type(file, ranks, t)
}

// All types, in rising number.
#[tactic(auto, using(crate::proofs::Searching::everything))]
fn rank_all(file: &Source<'_>, ranks: &mut [u32]) -> Result<(), Circle>
    requires { Upto file.now 0 ranks.old }
    ensures { Ends file.now (Upto file.now (many file.now) ranks.new) result }
{
    let many = ranks.len() as u32;
    for t in 0..many {
        rank_next(file, ranks, t)?;
    }
    Ok(())
}

// The words hold the ranks, or there are none and the words are 0.
#[tactic(auto, using(crate::proofs::Searching::answering))]
pub fn lowest_ranks(file: &File<'_>, ranks: &mut [u32]) -> Result<(), Circle>
    requires { (length ranks.old ≡ Layout.count file.now.source Layout.types) }
    ensures { Found (ranks_of file.now.source) (length ranks.old) result ranks.new }
{
    forget(ranks);
    let ranked = rank_all(&file.source, ranks);
    if ranked.is_err() {
        clear(ranks);
    }
    ranked
}
