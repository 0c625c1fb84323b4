// Comparing shapes of a file: two of one kind, by what their words and runs say. A shape inside is compared by the number that stands for it:
// in `classes`, or its own past the end of that. With no classes this is refusal 5's comparison, since no two lower shapes are alike.
#![tactic(auto, using(crate::proofs::Comparing::comparing))]

ghost use Rattle.std.specs.Prelude.{◌≡◌, ◌+◌, ◌<◌, eqb};
ghost use Rattle.definition.specs.Layout as Layout;
ghost use Rattle.definition.specs.Layout.{shapes};
ghost use Rattle.definition.specs.Accept as Accept;
ghost use Rattle.shapes.specs.Alike.{class_in, same_in, ListedBy};

use definition::layout::{DIMENSIONS, SHAPE_FIELDS, SHAPES};
use records::source::Source;

fn class_in(classes: &[u32], n: u32) -> u32
    ensures { result ≡ class_in classes.now n }
{
    classes.get(n as usize).copied().unwrap_or(n)
}

pub fn same_in(classes: &[u32], m: u32, n: u32) -> bool
    ensures { result ≡ same_in classes.now m n }
{
    class_in(classes, m) == class_in(classes, n)
}

pub fn same_link(classes: &[u32], m: u32, n: u32) -> bool
    ensures { result ≡ Accept.same_link (same_in classes.now) m n }
{
    let Some(a) = m.checked_sub(1) else {
        return n == 0;
    };
    let Some(b) = n.checked_sub(1) else {
        return false;
    };
    same_in(classes, a, b)
}

// Word `place` is the same in records `a + j` and `b + j`.
pub fn same_run_word(
    file: &Source<'_>,
    section: usize,
    a: u32,
    b: u32,
    j: u32,
    place: usize,
) -> bool
    requires { (section < 14) × (place < 16) }
    ensures { result ≡ eqb (Layout.word file.now section (a + j) place) (Layout.word file.now section (b + j) place) }
{
    file.run_word(section, a, j, place) == file.run_word(section, b, j, place)
}

#[tactic(auto, using(crate::proofs::Comparing::comparing), unfolding(definition::specs::Accept::same_field))]
pub fn same_field(file: &Source<'_>, classes: &[u32], a: u32, b: u32, j: u32) -> bool
    ensures { result ≡ Accept.same_field file.now (same_in classes.now) (a + j) (b + j) }
{
    let left = file.run_word(SHAPE_FIELDS, a, j, 1);
    let right = file.run_word(SHAPE_FIELDS, b, j, 1);
    same_run_word(file, SHAPE_FIELDS, a, b, j, 0)
        & same_in(classes, left, right)
        & same_run_word(file, SHAPE_FIELDS, a, b, j, 2)
}

#[tactic(auto, using(crate::proofs::Comparing::comparing), unfolding(definition::specs::Accept::same_dimension))]
pub fn same_dimension(file: &Source<'_>, a: u32, b: u32, j: u32) -> bool
    ensures { result ≡ Accept.same_dimension file.now (a + j) (b + j) }
{
    same_run_word(file, DIMENSIONS, a, b, j, 0) & same_run_word(file, DIMENSIONS, a, b, j, 1)
}

// Two runs list the same: `same` compares records `a + j` and `b + j`.
pub fn same_run<F: Fn(u32, u32, u32) -> bool>(
    same: F,
    a: u32,
    many: u32,
    b: u32,
    others: u32,
) -> bool
    requires { F.IsAlwaysCallable same }
    ensures { ListedBy (F.post same) a many b others result }
{
    if many != others {
        return false;
    }
    (0..many).all(|j| same(a, b, j))
}

// The runs at word `place` of two shapes list the same.
pub fn same_runs<F: Fn(u32, u32, u32) -> bool>(
    file: &Source<'_>,
    same: F,
    m: u32,
    n: u32,
    place: usize,
) -> bool
    requires place { place < 15 }
    requires pre { F.IsAlwaysCallable same }
    ensures { ListedBy (F.post same)
        (Layout.word file.now shapes m place) (Layout.word file.now shapes m (place + 1))
        (Layout.word file.now shapes n place) (Layout.word file.now shapes n (place + 1)) result }
{
    let a = file.word(SHAPES, m, place);
    let many = file.word(SHAPES, m, place + 1);
    let b = file.word(SHAPES, n, place);
    let others = file.word(SHAPES, n, place + 1);
    same_run(same, a, many, b, others)
}
