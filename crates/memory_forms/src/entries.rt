// How many entries an array lists, counted up to one past what a word holds.
#![tactic(auto, using(crate::proofs::Counting::counting))]

ghost use Rattle.std.specs.Prelude.{◌≡◌, ◌*◌, ◌^◌, ◌≤◌, min};
ghost use Rattle.memory_definition.specs.Cells.{entries_up_to};

use definition::records::Shape;
use records::source::Source;
use shapes::arrays::product_up_to;

// One more than a word holds: past it, it does not matter how many there are.
const MANY: u64 = 4294967296;

fn times(a: u64, b: u64) -> u64
    ensures { result ≡ min (a * b) (2 ^ 32) }
{
    a.saturating_mul(b).min(MANY)
}

pub fn entries_up_to(file: &Source<'_>, left: usize, shape: Shape) -> u64
    ensures { result ≡ min (entries_up_to file.now left shape) (2 ^ 32) }
{
    if left == 0 {
        return 1;
    }
    let Shape::Array {
        element,
        first,
        count,
    } = shape
    else {
        return 1;
    };
    let inner = entries_up_to(file, left - 1, file.shape(element));
    times(product_up_to(file, first, count, MANY), inner)
}
