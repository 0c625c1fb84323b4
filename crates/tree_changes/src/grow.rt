// Trees that grow: more values under a head, a run repeated, a part replaced. What would be too large is found before anything is written.
#![tactic(auto, using(crate::proofs::Splices::splices))]

ghost use Rattle.std.specs.Prelude.{◌≡◌};
ghost use Rattle.tree_changes.specs.Grow.{Gathered, Repeated, in_order, Ordered, ordered_of, replaced_of, Room, Within, Spliced, Replaced, Assigned};

use crate::limit::{may_gather, may_repeat};
use definition::layout::{MOST_NODES, NODE_WORDS};
use tree::extent::Span;
use tree::node::set_name;
use tree::words::{copies, copy, fits, nodes_fit};

// Why a tree or a run does not grow: it would be too large, or its places are not within the words.
#[derive(Clone, Copy)]
pub enum Unfit {
    TooLarge,
    Outside,
}

// Copies so many nodes to a place, behind `size` nodes that were gathered under a head, and answers where they end.
#[tactic(auto, using(crate::proofs::Grows::grows))]
pub fn gather(
    from: &[u32],
    a: usize,
    nodes: usize,
    out: &mut [u32],
    at: usize,
    size: usize,
) -> Result<usize, Unfit>
    ensures { Gathered from.now a nodes out.old at size result out.new }
{
    if !may_gather(size, nodes) {
        return Err(Unfit::TooLarge);
    }
    copy(from, a, nodes * NODE_WORDS, out, at).ok_or(Unfit::Outside)
}

// The nodes at a place, so many times one behind the other, and where they end.
#[tactic(auto, using(crate::proofs::Grows::grows))]
pub fn repeat(out: &mut [u32], at: usize, nodes: usize, times: usize) -> Result<usize, Unfit>
    ensures { Repeated out.old at nodes times result out.new }
{
    if !may_repeat(times, nodes) {
        return Err(Unfit::TooLarge);
    }
    if !nodes_fit(out.len(), at, nodes) {
        return Err(Unfit::Outside);
    }
    let words = nodes * NODE_WORDS;
    let all = words * times;
    if !fits(out.len(), at, all) {
        return Err(Unfit::Outside);
    }
    copies(out, at, words, times);
    Ok(at + all)
}

// Whether the part lies within the tree, and the new one behind it.
#[tactic(auto, using(crate::proofs::Splices::orders))]
fn in_order(tree: Span, part: Span, fresh: Span) -> bool
    ensures { result ≡ in_order tree part fresh }
{
    tree.begin <= part.begin
        && part.begin <= part.end
        && part.end <= tree.end
        && tree.end <= fresh.begin
        && fresh.begin <= fresh.end
}

fn ordered_end(length: usize, tree: Span, part: Span, fresh: Span) -> Result<usize, Unfit>
    requires { Ordered tree part fresh }
    ensures { result ≡ ordered_of length tree part fresh }
{
    let tail = tree.end - part.end;
    let moved = fresh.end - fresh.begin + tail;
    if MOST_NODES * NODE_WORDS < part.begin - tree.begin + moved {
        return Err(Unfit::TooLarge);
    }
    if !fits(length, fresh.end, tail) {
        return Err(Unfit::Outside);
    }
    Ok(part.begin + moved)
}

fn replaced_end(length: usize, tree: Span, part: Span, fresh: Span) -> Result<usize, Unfit>
    ensures { result ≡ replaced_of length tree part fresh }
{
    if !in_order(tree, part, fresh) {
        return Err(Unfit::Outside);
    }
    ordered_end(length, tree, part, fresh)
}

// A longer tree: what follows the part goes behind it, then both go down to the part.
fn splice_longer(out: &mut [u32], tree: Span, part: Span, fresh: Span)
    requires { Room out.old tree part fresh }
    ensures { Spliced out.old tree part fresh out.new }
{
    let tail = tree.end - part.end;
    out.copy_within(part.end..tree.end, fresh.end);
    out.copy_within(fresh.begin..fresh.end + tail, part.begin);
}

// A tree that is no longer than the part takes its place, and what follows the part closes up. One just as long moves nothing else.
#[tactic(auto, using(crate::proofs::Closes::closes))]
fn splice_within(out: &mut [u32], tree: Span, part: Span, fresh: Span)
    requires { Within out.old tree part fresh }
    ensures { Spliced out.old tree part fresh out.new }
{
    out.copy_within(fresh.begin..fresh.end, part.begin);
    let to = part.begin + (fresh.end - fresh.begin);
    if to < part.end {
        out.copy_within(part.end..tree.end, to);
    }
}

fn splice(out: &mut [u32], tree: Span, part: Span, fresh: Span)
    requires { Room out.old tree part fresh }
    ensures { Spliced out.old tree part fresh out.new }
{
    if part.end - part.begin < fresh.end - fresh.begin {
        splice_longer(out, tree, part, fresh);
    } else {
        splice_within(out, tree, part, fresh);
    }
}

// A part of a tree gives way to the tree that lies behind it, and the answer is where the whole then ends.
// The words from there up to `fresh.end`, and as many more as follow the part, are scratch.
pub fn replace(out: &mut [u32], tree: Span, part: Span, fresh: Span) -> Result<usize, Unfit>
    ensures { Replaced out.old tree part fresh result out.new }
{
    let end = replaced_end(out.len(), tree, part, fresh)?;
    splice(out, tree, part, fresh);
    Ok(end)
}

// The same for a field: the new tree takes its name.
#[tactic(auto, using(crate::proofs::Splices::assigns))]
pub fn assign(
    out: &mut [u32],
    tree: Span,
    part: Span,
    fresh: Span,
    name: u32,
) -> Result<usize, Unfit>
    ensures { Assigned out.old tree part fresh name result out.new }
{
    let end = replaced_end(out.len(), tree, part, fresh)?;
    set_name(out, fresh.begin, name);
    splice(out, tree, part, fresh);
    Ok(end)
}
