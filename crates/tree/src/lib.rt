// Trees in lent words: six words for each node, and a node's parts behind it (document 01, "nodes").
// What a tree is stands in the crate `definition` (specs/Tree.antt); the laws that join the two are in proofs/.
#![tactic(auto)]

pub mod extent;
pub mod node;
pub mod part;
pub mod words;
