// How deep entries and shapes nest. The depths of lower records stand in a table, and a record's own is found from them.
#![tactic(auto, using(crate::proofs::Nests::nests))]

ghost use Rattle.std.specs.Prelude.{◌≡◌, ℕ, suc, ◌≤◌, length, replicate};
ghost use Rattle.definition.specs.Base.{on_link};
ghost use Rattle.definition.specs.Layout as Layout;
ghost use Rattle.definition.specs.Records.{shape_at, entry_at};
ghost use Rattle.definition.specs.Depth as Depth;
ghost use Rattle.acceptance.specs.Nesting.{depth_in, field_depth, Shallow, FromLower, GreatestOf, OverRun};

use definition::layout::{ENTRIES, SHAPE_FIELDS, SHAPES};
use definition::records::{Entry, Shape};
use records::file::File;
use records::source::Source;
use records::words::word_at;

// One more than the deepest of a run: `place` says where the depth of each stands.
fn over_run<F: Fn(u32) -> usize>(depths: &[u32], many: u32, place: F) -> u32
    requires shallow { Shallow depths.now }
    requires pre { F.IsAlwaysCallable place }
    ensures { OverRun (F.post place) depths.now many result }
{
    let below = (0..many).map(|j| word_at(depths, place(j)));
    below.max().unwrap_or(0) + 1
}

// One more than the deepest record of a run.
fn over_records(depths: &[u32], first: u32, many: u32) -> u32
    requires { Shallow depths.now }
    ensures { result ≡ suc (Depth.deepest (depth_in depths.now) first many) }
{
    over_run(depths, many, |j| first as usize + j as usize)
}

// One more than the deepest shape that a run of fields leads to.
fn over_fields(file: &Source<'_>, depths: &[u32], first: u32, many: u32) -> u32
    requires { Shallow depths.now }
    ensures { result ≡ suc (Depth.deepest (field_depth file.now depths.now) first many) }
{
    over_run(
        depths,
        many,
        |j| file.run_word(SHAPE_FIELDS, first, j, 1) as usize,
    )
}

fn over_one(depths: &[u32], n: u32) -> u32
    requires { Shallow depths.now }
    ensures { result ≡ suc (depth_in depths.now n) }
{
    word_at(depths, n as usize) + 1
}

fn over_link(depths: &[u32], link: u32) -> u32
    requires { Shallow depths.now }
    ensures { result ≡ suc (on_link link 0 (depth_in depths.now)) }
{
    let Some(n) = link.checked_sub(1) else {
        return 1;
    };
    over_one(depths, n)
}

fn entry_depth(file: &Source<'_>, depths: &[u32], e: u32) -> u32
    requires { Shallow depths.now }
    ensures { result ≡ Depth.entry_depth_from (depth_in depths.now) (entry_at file.now e) }
{
    match file.entry(e) {
        Entry::Array { first, count } => over_records(depths, first, count),
        Entry::Structure { first, count } => over_records(depths, first, count),
        Entry::Repeat { inner, .. } => over_link(depths, inner),
        _ => 1,
    }
}

fn shape_depth(file: &Source<'_>, depths: &[u32], n: u32) -> u32
    requires { Shallow depths.now }
    ensures { result ≡ Depth.shape_depth_from file.now (depth_in depths.now) (shape_at file.now n) }
{
    match file.shape(n) {
        Shape::Structure { first, count } => over_fields(file, depths, first, count),
        Shape::Array { element, .. } => over_one(depths, element),
        _ => 1,
    }
}

// The greatest depth of `many` records: `depth` finds each from those before it, since records point only lower.
#[tactic(auto, using(crate::proofs::Nests::leveling))]
fn greatest<F: Fn(&[u32], u32) -> u32>(depth: F, many: u32, words: &mut [u32]) -> u32
    requires { (many ≤ length words.old) × (words.old ≡ replicate (length words.old) 0) × ((d : ℕ → ℕ) × FromLower (F.pre depth) (F.post depth) d many) }
    ensures is { GreatestOf (F.pre depth) (F.post depth) many result }
    ensures cleared { words.new ≡ words.old }
{
    let mut most: u32 = 0;
    for n in 0..many {
        let at = n as usize;
        let own = depth(&words[..at], n);
        words[at] = own;
        most = most.max(own);
    }
    let end = many as usize;
    words[..end].fill(0);
    most
}

// How many trees can be under construction at once. The words hold the depths of entries, then those of shapes, and end as they were.
#[tactic(auto, using(crate::proofs::Nests::leveling))]
pub fn levels(file: &File<'_>, words: &mut [u32]) -> u32
    requires { (Layout.count file.now.source Layout.entries ≤ length words.old) × (Layout.count file.now.source Layout.shapes ≤ length words.old) × (words.old ≡ replicate (length words.old) 0) }
    ensures is { result ≡ Depth.levels file.now.source }
    ensures cleared { words.new ≡ words.old }
{
    let source = &file.source;
    let entries = greatest(
        |depths, e| entry_depth(source, depths, e),
        source.count(ENTRIES),
        words,
    );
    let shapes = greatest(
        |depths, n| shape_depth(source, depths, n),
        source.count(SHAPES),
        words,
    );
    entries + shapes + 1
}
