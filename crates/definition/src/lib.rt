// The enums and constants that code and definition share. What they mean is in specs/.
#![tactic(auto)]

pub mod answers;
pub mod layout;
pub mod records;
