// What values, defaults and copies add to an array or to a structure, as trees in lent words. Nothing here reads a list of entries.
#![tactic(auto)]

pub mod answers;
pub mod copies;
pub mod defaults;
pub mod leaves;
