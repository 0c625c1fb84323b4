// Refusals 3 and 4: a rule for each record, and the scan over all records.
#![tactic(auto)]

pub mod inside;
pub mod points;
pub mod rules;
pub mod runs;
pub mod scan;
