// Why nothing was built, as what is remembered of a type.
#![tactic(auto)]

ghost use Rattle.std.specs.Prelude.{◌≡◌};
ghost use Rattle.build.specs.Absent.{absent_of};

use crate::built::Unbuilt;
use lines::look::Absent;

// Of what waits for another type nothing is known.
impl From<Unbuilt> for Absent {
    ghost from_gives = { λ unbuilt absent. absent ≡ absent_of unbuilt };

    fn from(unbuilt: Unbuilt) -> Absent {
        match unbuilt {
            Unbuilt::None => Absent::None,
            Unbuilt::TooLarge => Absent::TooLarge,
            Unbuilt::Wanted(_) => Absent::Unknown,
        }
    }
}
