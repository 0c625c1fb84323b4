// What follows from the definition of start memory: only laws, in specs/.
#![tactic(auto)]
