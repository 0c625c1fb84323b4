// Reading a sheet (document 01, the start sheet): where its lines stand (refusal 11), whether its ranks rise (12), and lines compared (13). Nothing is
// copied: a line is found by its place.
#![tactic(auto)]

pub mod compare;
pub mod ends;
pub mod find;
pub mod index;
pub mod next;
pub mod small;
pub mod tests;
