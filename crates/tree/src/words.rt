// Words at a place of a slice, copied to another slice or to another place of the same one.
#![tactic(auto, using(crate::proofs::Moves::tests))]

ghost use Rattle.std.specs.Prelude.{◌≡◌, ◌&&◌, ◌+◌, ◌*◌, ◌≤◌, leb, length, take, drop};
ghost use Rattle.std.proofs.Math.Seq.{paste};
ghost use Rattle.tree.specs.Words.{WroteCopy, WroteShift, Copyable, apart, movable, rept};

use definition::layout::NODE_WORDS;

// Whether so many words from a place on lie within a length.
#[tactic(auto, using(crate::proofs::Writes::writes))]
pub fn fits(length: usize, at: usize, count: usize) -> bool
    ensures { result ≡ leb (at + count) length }
{
    at <= length && count <= length - at
}

fn both_fit(from: usize, a: usize, to: usize, at: usize, count: usize) -> bool
    ensures { result ≡ leb (a + count) from && leb (at + count) to }
{
    fits(from, a, count) && fits(to, at, count)
}

// One word after another: an archive for C then asks for no function of the C library (`copy_from_slice` asks for `memmove`).
#[tactic(auto, using(crate::proofs::Copies::copies))]
fn copy_words(from: &[u32], a: usize, count: usize, out: &mut [u32], at: usize)
    requires { Copyable (length from.now) a (length out.old) at count }
    ensures { out.new ≡ paste out.old at (drop a from.now) count }
{
    for i in 0..count {
        out[at + i] = from[a + i];
    }
}

// Copies so many words to another slice, and answers where they end.
pub fn copy(from: &[u32], a: usize, count: usize, out: &mut [u32], at: usize) -> Option<usize>
    ensures { WroteCopy from.now a count out.old at result out.new }
{
    if both_fit(from.len(), a, out.len(), at, count) {
        copy_words(from, a, count, out, at);
        Some(at + count)
    } else {
        None
    }
}

// Whether a word is read before it is written over, from the first word to the last.
fn is_apart(from: usize, count: usize, to: usize) -> bool
    ensures { result ≡ apart from count to }
{
    to <= from || fits(to, from, count)
}

fn is_movable(length: usize, from: usize, count: usize, to: usize) -> bool
    ensures { result ≡ movable length from count to }
{
    both_fit(length, from, length, to, count) && is_apart(from, count, to)
}

// Copies so many words to the front or past their end, and answers where they end.
pub fn shift(out: &mut [u32], from: usize, count: usize, to: usize) -> Option<usize>
    ensures { WroteShift out.old from count to result out.new }
{
    if is_movable(out.len(), from, count, to) {
        out.copy_within(from..from + count, to);
        Some(to + count)
    } else {
        None
    }
}

// Whether so many nodes from a place on lie within a length.
#[tactic(auto, using(crate::proofs::Writes::writes))]
pub fn nodes_fit(length: usize, at: usize, nodes: usize) -> bool
    ensures { result ≡ leb (at + nodes * 6) length }
{
    at <= length && nodes <= (length - at) / NODE_WORDS
}

// The words at a place, so many times one behind the other.
#[tactic(auto, using(crate::proofs::Repeats::repeats))]
pub fn copies(out: &mut [u32], at: usize, count: usize, times: usize)
    requires { at + count * times ≤ length out.old }
    ensures { out.new ≡ paste out.old at (rept times (take count (drop at out.old))) (count * times) }
{
    // No words are so many times nothing, however many times.
    if count == 0 {
        return;
    }
    let mut done = 1;
    let mut left = times.saturating_sub(1);
    // Those that stand are copied behind themselves, twice as many each time.
    while left > 0 {
        let more = done.min(left);
        out.copy_within(at..at + count * more, at + count * done);
        done += more;
        left -= more;
    }
}
