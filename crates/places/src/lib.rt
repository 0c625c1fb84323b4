// Places: variables, fields and elements by what the file says of them, and what a constant or an expression gives one (the functions of resolver.rs that
// only read).
#![tactic(auto)]

pub mod block;
pub mod declared;
pub mod expressions;
pub mod field;
pub mod named;
pub mod place;
pub mod values;
