// Whether ranks rise along every use (refusal 12).
#![tactic(auto)]

ghost use Rattle.std.specs.Prelude.{◌≡◌};
ghost use Rattle.definition.specs.Layout as Layout;
ghost use Rattle.definition.specs.Uses.{uses, rising};

use crate::above::{Ranks, raised};
use definition::layout::TYPES;
use records::source::Source;

pub fn ranks_rise<R: Ranks>(file: &Source<'_>, ranks: R) -> bool
    ensures { result ≡ rising (Layout.count file.now Layout.types) (uses file.now) (R.rank_of ranks) }
{
    (0..file.count(TYPES)).all(|t| raised(file, ranks, t) <= ranks.rank(t) as usize)
}
