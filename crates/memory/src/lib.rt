// The public functions of start memory: a variable's tree as the controller's bytes, and nodes read from bytes. Work words are lent as two slices.
#![tactic(auto)]

pub mod place;
pub mod read;
pub mod write;
