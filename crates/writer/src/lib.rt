// The start sheet: every type is resolved once, the sheet is counted, and it is written if it fits.
#![tactic(auto)]

pub mod refusal;
pub mod resolved;
pub mod sheet;
