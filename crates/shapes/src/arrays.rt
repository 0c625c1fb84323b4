// Refusal 6: how many elements an array shape has.
#![tactic(auto, using(crate::proofs::Multiplying::multiplying))]

ghost use Rattle.std.specs.Prelude.{◌≡◌, ◌+◌, ◌^◌, ◌≤◌, min};
ghost use Rattle.definition.specs.Accept.{dimension_span, elements_of, array_small, arrays_small};

use definition::layout::{DIMENSIONS, SHAPES};
use plain::words::biased;
use records::source::Source;

const MOST_ELEMENTS: u64 = 65536;

// How many elements dimension `first + j` counts; 0 where it ends before it starts.
#[tactic(auto, using(crate::proofs::Multiplying::spans))]
pub fn dimension_span(file: &Source<'_>, first: u32, j: u32) -> u64
    ensures is { result ≡ dimension_span file.now (first + j) }
    ensures small { result ≤ 2 ^ 32 }
{
    let lower = biased(file.run_word(DIMENSIONS, first, j, 0)) as u64;
    let upper = biased(file.run_word(DIMENSIONS, first, j, 1)) as u64;
    if upper + 1 < lower {
        return 0;
    }
    upper + 1 - lower
}

// How many elements so many dimensions count together, up to a cap: past it, it does not matter how many there are.
pub fn product_up_to(file: &Source<'_>, first: u32, many: u32, most: u64) -> u64
    ensures { result ≡ min (elements_of file.now first many) most }
{
    (0..many).fold(most.min(1), |product, j| {
        product
            .saturating_mul(dimension_span(file, first, j))
            .min(most)
    })
}

// Up to one past the most elements.
pub fn elements(file: &Source<'_>, first: u32, many: u32) -> u64
    ensures { result ≡ min (elements_of file.now first many) 65537 }
{
    product_up_to(file, first, many, MOST_ELEMENTS + 1)
}

fn array_small(file: &Source<'_>, n: u32) -> bool
    ensures { result ≡ array_small file.now n }
{
    if file.word(SHAPES, n, 0) != 12 {
        return true;
    }
    let first = file.word(SHAPES, n, 2);
    let many = file.word(SHAPES, n, 3);
    elements(file, first, many) <= MOST_ELEMENTS
}

// An array shape has more than 65,536 elements.
pub fn arrays_small(file: &Source<'_>) -> bool
    ensures { result ≡ arrays_small file.now }
{
    let many = file.count(SHAPES);
    (0..many).all(|n| array_small(file, n))
}
