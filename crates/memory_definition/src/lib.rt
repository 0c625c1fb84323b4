// The enums that code and definition of start memory share. What they mean is in specs/.
#![tactic(auto)]

pub mod form;
