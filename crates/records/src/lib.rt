// Reading declaration files: where each section and each record stands, and one record as a value.
#![tactic(auto)]

pub mod file;
pub mod source;
pub mod view;
pub mod words;
