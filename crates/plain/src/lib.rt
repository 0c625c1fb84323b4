// Refusals 1 to 3, but for the scan over all records: where the words end, counts, and the words that a record may have by its kind.
#![tactic(auto)]

pub mod counts;
pub mod words;
