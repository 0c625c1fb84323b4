// What integer types and subranges hold (value_range.rs). Nothing here reads a file.
#![tactic(auto)]

pub mod range;
pub mod table;
