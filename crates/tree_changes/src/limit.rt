// Refusal 8: a tree has at most 2,048 nodes, its head among them; and values are no more than there are places. These are the definition's tests.
#![tactic(auto, using(crate::proofs::Limits::copyings))]

ghost use Rattle.std.specs.Prelude.{◌≡◌, suc, ◌+◌, ◌*◌, leb};
ghost use Rattle.definition.specs.Tree.{most_nodes};
ghost use Rattle.tree_changes.specs.Limit.{added_of, copied_of};

use definition::layout::MOST_NODES;
use tree::words::fits;

// Why values do not fit behind those that there are: too many for the places, or too large a tree.
#[derive(Clone, Copy)]
pub enum Misfit {
    TooMany,
    TooLarge,
}

// A tree of so many nodes (`formed`).
pub fn may_form(nodes: usize) -> bool
    ensures { result ≡ leb nodes most_nodes }
{
    nodes <= MOST_NODES
}

// More nodes under a head that has some already (`gathered`).
#[tactic(auto, using(crate::proofs::Grows::grows))]
pub fn may_gather(size: usize, more: usize) -> bool
    ensures { result ≡ leb (suc (size + more)) most_nodes }
{
    size < MOST_NODES && more < MOST_NODES - size
}

// So many times some nodes, under a head (`repeated_defaults`).
#[tactic(auto, using(crate::proofs::Grows::grows))]
pub fn may_repeat(times: usize, nodes: usize) -> bool
    ensures { result ≡ leb (suc (times * nodes)) most_nodes }
{
    nodes == 0 || times <= (MOST_NODES - 1) / nodes
}

// So many values of so many nodes, behind `made` values of `size` nodes (`added`).
#[tactic(auto, using(crate::proofs::Limits::copyings), unfolding(crate::specs::Limit::added_of))]
pub fn may_add(
    places: usize,
    made: usize,
    size: usize,
    values: usize,
    nodes: usize,
) -> Result<(), Misfit>
    ensures { result ≡ added_of places made size values nodes }
{
    if !may_gather(size, nodes) {
        return Err(Misfit::TooLarge);
    }
    if !fits(places, made, values) {
        return Err(Misfit::TooMany);
    }
    Ok(())
}

// The same values so many times, each time behind those that were added before (`copied`). Takes `times` steps at most: `expand` holds
// them to the places first.
pub fn may_copy(
    times: usize,
    places: usize,
    made: usize,
    size: usize,
    values: usize,
    nodes: usize,
) -> Result<(), Misfit>
    ensures { result ≡ copied_of times places made size values nodes }
{
    let mut count = made;
    let mut gathered = size;
    for _ in 0..times {
        may_add(places, count, gathered, values, nodes)?;
        count += values;
        gathered += nodes;
    }
    Ok(())
}
