// What a building function answers: where the value that it formed ends in the room, or why there is none.

ghost use Rattle.std.specs.Prelude.{◌≡◌};
ghost use Rattle.build.specs.Unfit.{unbuilt_of, unlisted_of};

use tree_changes::grow::Unfit;
use tree_changes::limit::Misfit;

// There is no value; it is too large; or the first type that is not remembered.
#[derive(Clone, Copy)]
pub enum Unbuilt {
    None,
    TooLarge,
    Wanted(u32),
}

impl From<Unfit> for Unbuilt {
    ghost from_gives = { λ u e. e ≡ unbuilt_of u };

    fn from(u: Unfit) -> Unbuilt {
        match u {
            Unfit::TooLarge => Unbuilt::TooLarge,
            Unfit::Outside => Unbuilt::None,
        }
    }
}

// More values than places are none.
impl From<Misfit> for Unbuilt {
    ghost from_gives = { λ m e. e ≡ unlisted_of m };

    fn from(m: Misfit) -> Unbuilt {
        match m {
            Misfit::TooMany => Unbuilt::None,
            Misfit::TooLarge => Unbuilt::TooLarge,
        }
    }
}

// Where the index of remembered types begins in the tables: behind the classes of at most 1,024 shapes.
pub const INDEX_AT: usize = 1024;
