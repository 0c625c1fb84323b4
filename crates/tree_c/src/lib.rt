// What tools/measure_tree links: a part that is replaced, and a plain copy to measure it against.
#![tactic(auto, using(crate::proofs::Numbers::numbers))]

ghost use Rattle.tree_c.specs.Ends.{span, ReplacedTo, CopiedTo};

use tree::extent::Span;
use tree::words;
use tree_changes::grow;

// The tree's new end, or 0 where nothing was written.
#[unsafe(no_mangle)]
pub extern "C" fn wirkesu_tree_replace(
    out: &mut [u32],
    tree_begin: usize,
    tree_end: usize,
    part_begin: usize,
    part_end: usize,
    fresh_begin: usize,
    fresh_end: usize,
) -> usize
    ensures { ReplacedTo out.old (span tree_begin tree_end) (span part_begin part_end) (span fresh_begin fresh_end) result out.new }
{
    let tree = Span {
        begin: tree_begin,
        end: tree_end,
    };
    let part = Span {
        begin: part_begin,
        end: part_end,
    };
    let fresh = Span {
        begin: fresh_begin,
        end: fresh_end,
    };
    grow::replace(out, tree, part, fresh).unwrap_or(0)
}

// Where the words end in `out`, or 0 where nothing was written.
#[unsafe(no_mangle)]
pub extern "C" fn wirkesu_tree_copy(
    from: &[u32],
    a: usize,
    count: usize,
    out: &mut [u32],
    at: usize,
) -> usize
    ensures { CopiedTo from.now a count out.old at result out.new }
{
    words::copy(from, a, count, out, at).unwrap_or(0)
}
