// A circle of uses as the refusal that it is.
ghost use Rattle.std.specs.Prelude.{◌≡◌};
ghost use Rattle.definition.specs.declared.answers.Refusal.TheVariants as refusal;

use crate::lowest::Circle;
use definition::answers::Refusal;

impl From<Circle> for Refusal {
    ghost from_gives = { λ c r. r ≡ refusal.Circle };

    fn from(_: Circle) -> Refusal {
        Refusal::Circle
    }
}
