// Which files are accepted, how deep their entries and shapes nest, and how many work words they want.
#![tactic(auto)]

pub mod accept;
pub mod admit;
pub mod depths;
pub mod work;
