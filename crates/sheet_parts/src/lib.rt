// The lines and sections of a start sheet, from the remembered lines of all types.
#![tactic(auto)]

pub mod line;
pub mod part;
pub mod put;
pub mod types;
pub mod variables;
