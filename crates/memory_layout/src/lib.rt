// The shapes of the places of a tree's nodes, written into words beside the tree's (`cells` of the definition of start memory).
#![tactic(auto)]

pub mod layout;
pub mod parts;
pub mod words;
