// How a node stands in memory, and whether the shape of its place holds it.
#![tactic(auto)]

pub mod cells;
pub mod entries;
pub mod form;
pub mod held;
pub mod members;
