// A tree's nodes as bytes: whether all can be written, how many bytes they have, and the bytes.
#![tactic(auto)]

pub mod all;
pub mod cell;
pub mod narrow;
pub mod number;
pub mod string;
