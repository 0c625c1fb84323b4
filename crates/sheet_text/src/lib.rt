// What the sheet program prints for the bytes that it reads (document 01, after the examples).
#![tactic(auto)]

pub mod file;
pub mod input;
pub mod words;
