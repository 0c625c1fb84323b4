// Which member of a run has a name.
#![tactic(auto, using(crate::proofs::Holding::naming))]

ghost use Rattle.std.specs.Prelude.{◌≡◌, suc, ◌+◌};
ghost use Rattle.definition.specs.Layout.{members};
ghost use Rattle.definition.specs.Places.{first_named};
ghost use Rattle.tree.specs.Part.{on_end};

use definition::layout::MEMBERS;
use records::source::Source;

// The place of the first one in the run. In a run that its section does not hold, a link to it need not fit a word.
pub fn member_place(file: &Source<'_>, name: u32, first: u32, many: u32) -> Option<u32>
    ensures { on_end result (λ place. suc (first + place)) 0 ≡ first_named file.now members name first many }
{
    for place in 0..many {
        if file.run_word(MEMBERS, first, place, 0) == name {
            return Some(place);
        }
    }
    None
}
