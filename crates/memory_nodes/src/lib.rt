// The nodes of a tree and their characters, read from bytes along the nodes of a tree of the same parts.
#![tactic(auto)]

pub mod all;
pub mod bytes;
pub mod literal;
pub mod node;
pub mod put;
pub mod readable;
