// Remembered defaults of types, as lines in lent words. `index` has a word for each type: 0 unknown, 1 in progress, otherwise 2 and the place of
// the type's line in `store`. A line has the form that it has in a sheet: rank, state, count and nodes (document 01, the start sheet).
// What they stand for is the definition's memo (specs/Memory.antt); the laws that join the two are in proofs/.
#![tactic(auto)]

pub mod append;
pub mod clear;
pub mod copy;
pub mod look;
