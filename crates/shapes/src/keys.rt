// A key for each shape: alike shapes have one, so that refusal 5 compares only shapes of one key.
#![tactic(auto, using(crate::proofs::Keying::keying))]

ghost use Rattle.std.specs.Prelude.{◌≡◌, ◌<◌, ◌≤◌, length};
ghost use Rattle.records.specs.Tables.{Filled};
ghost use Rattle.shapes.specs.Keys.{run_sum, key_of};

use definition::layout::{DIMENSIONS, MEMBERS, SHAPE_FIELDS, SHAPES};
use records::source::Source;

// Word `place` of each record of a run, added up: fewer than 2^32 words of 32 bits each.
#[tactic(auto, using(crate::proofs::Keying::summing))]
fn run_sum(file: &Source<'_>, section: usize, first: u32, many: u32, place: usize) -> u64
    requires { (section < 14) × (place < 16) }
    ensures { result ≡ run_sum file.now section place first many }
{
    let mut sum: u64 = 0;
    for j in 0..many {
        sum += file.run_word(section, first, j, place) as u64;
    }
    sum
}

fn key_of(file: &Source<'_>, n: u32) -> u64
    ensures { result ≡ key_of file.now n }
{
    let kind = file.word(SHAPES, n, 0);
    let a = file.word(SHAPES, n, 1);
    let b = file.word(SHAPES, n, 2);
    let c = file.word(SHAPES, n, 3);
    match kind {
        0 => 0,
        10 => run_sum(file, MEMBERS, a, b, 0),
        11 => run_sum(file, SHAPE_FIELDS, a, b, 0),
        12 => run_sum(file, DIMENSIONS, b, c, 1),
        _ => a as u64,
    }
}

#[tactic(auto, using(crate::proofs::Filling::filling))]
pub fn fill_keys(file: &Source<'_>, many: u32, keys: &mut [u64])
    requires { many ≤ length keys.old }
    ensures { Filled (key_of file.now) many keys.old keys.new }
{
    let wanted = &mut keys[..many as usize];
    for (n, key) in wanted.iter_mut().enumerate() {
        *key = key_of(file, n as u32);
    }
}
