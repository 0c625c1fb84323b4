// Words from a place up to another, and where trees end.
#![tactic(auto, using(crate::proofs::Walks::goings))]

ghost use Rattle.std.specs.Prelude.{◌≡◌};
ghost use Rattle.definition.specs.Sheet.{parts_of};
ghost use Rattle.tree.specs.Extent.{after_of, whole_of, tree_of};

use crate::words::nodes_fit;
use definition::layout::NODE_WORDS;

// Words from a place up to another.
#[derive(Clone, Copy)]
pub struct Span {
    pub begin: usize,
    pub end: usize,
}

// How many parts follow a node.
#[tactic(auto, using(crate::proofs::Walks::goings), unfolding(definition::specs::Sheet::parts_of))]
pub fn parts_of(kind: u32, low: u32) -> u32
    ensures { result ≡ parts_of kind low }
{
    if kind < 13 { 0 } else { low }
}

// Where so many whole trees end that lie one behind the other.
pub fn after(s: &[u32], from: usize, count: usize) -> Option<usize>
    ensures { result ≡ after_of s.now from count }
{
    let mut pending = count;
    if pending == 0 {
        return Some(from);
    }
    if s.len() < from {
        return None;
    }
    let mut left = (s.len() - from) / NODE_WORDS;
    let mut at = from;
    while pending > 0 {
        // More trees than nodes: a count that lies is found before it is added up.
        if left < pending {
            return None;
        }
        let kind = s[at + 1];
        if kind > 14 {
            return None;
        }
        pending = parts_of(kind, s[at + 3]) as usize + (pending - 1);
        at += NODE_WORDS;
        left -= 1;
    }
    Some(at)
}

// Where the one whole tree at a place ends.
pub fn whole(s: &[u32], at: usize) -> Option<usize>
    ensures { result ≡ whole_of s.now at }
{
    after(s, at, 1)
}

// Whether exactly so many nodes from a place on are one whole tree (refusal 11).
#[tactic(auto, using(crate::proofs::Exact::exacts))]
pub fn is_tree(s: &[u32], at: usize, nodes: usize) -> bool
    ensures { result ≡ tree_of s.now at nodes }
{
    if !nodes_fit(s.len(), at, nodes) {
        return false;
    }
    let words = nodes * NODE_WORDS;
    whole(&s[at..at + words], 0) == Some(words)
}
