// What initializers and variables start with, built in lent words above the defaults of places.
#![tactic(auto)]

pub mod given;
pub mod start;
pub mod stated;
pub mod values;
pub mod variable;
