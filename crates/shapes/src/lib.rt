// Comparing shapes: refusals 5 and 6, and the classes of shapes that the Rust's `==` calls equal.
#![tactic(auto)]

pub mod alike;
pub mod arrays;
pub mod classes;
pub mod differ;
pub mod keys;
pub mod like;
