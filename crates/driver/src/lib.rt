// Types resolved one after another, each remembered as a line of a store: a type that is wanted is resolved first.
#![tactic(auto)]

pub mod asked;
pub mod driver;
pub mod every;
pub mod tables;
pub mod told;
pub mod work;
