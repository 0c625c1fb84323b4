// Trees in lent words that change: more values under a head, a run repeated, a part replaced, and the limit on nodes.
#![tactic(auto)]

pub mod grow;
pub mod limit;
