// Nodes copied to another slice.
#![tactic(auto, using(crate::proofs::Copying::copies))]

ghost use Rattle.std.specs.Prelude.{◌≡◌, ◌*◌};
ghost use Rattle.tree.specs.Words.{WroteCopy};
ghost use Rattle.lines.specs.Copy.{Copies, uncopied_of};

use crate::look::{Absent, look_up};
use definition::layout::NODE_WORDS;
use tree::words::{copy, nodes_fit};

// Why no copy stands there: nothing is known of the type, it has none or one too large, or there is no room for its tree.
#[derive(Clone, Copy)]
pub enum Uncopied {
    Unknown,
    None,
    TooLarge,
    Full,
}

impl From<Absent> for Uncopied {
    ghost from_gives = { λ absent uncopied. uncopied ≡ uncopied_of absent };

    fn from(absent: Absent) -> Uncopied {
        match absent {
            Absent::Unknown => Uncopied::Unknown,
            Absent::None => Uncopied::None,
            Absent::TooLarge => Uncopied::TooLarge,
        }
    }
}

// Copies so many nodes, and answers where they end.
pub fn copy_nodes(from: &[u32], a: usize, nodes: usize, out: &mut [u32], at: usize) -> Option<usize>
    ensures { WroteCopy from.now a (nodes * 6) out.old at result out.new }
{
    // So many nodes' words can then be counted.
    if !nodes_fit(from.len(), a, nodes) {
        return None;
    }
    copy(from, a, nodes * NODE_WORDS, out, at)
}

// Copies the tree that is remembered of a type, and answers where it ends.
#[tactic(auto, using(crate::proofs::Copying::copies), unfolding(crate::specs::Copy::copied_of, crate::specs::Copy::copied_words))]
pub fn copy_known(
    index: &[u32],
    store: &[u32],
    t: u32,
    out: &mut [u32],
    at: usize,
) -> Result<usize, Uncopied>
    ensures { Copies index.now store.now t out.old at result out.new }
{
    let tree = look_up(index, store, t)?;
    copy_nodes(store, tree.at, tree.nodes, out, at).ok_or(Uncopied::Full)
}
