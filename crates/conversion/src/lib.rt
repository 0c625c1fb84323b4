// What a constant of a file gives a place of one of its shapes, asked by their numbers.
#![tactic(auto)]

pub mod convert;
