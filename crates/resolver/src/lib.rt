// The public functions: the tree of a type, the tree of a variable, and completed initializers. Work words are lent as two slices.
#![tactic(auto)]

pub mod completed;
pub mod lent;
pub mod refusal;
pub mod trees;
