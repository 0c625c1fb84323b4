// What follows from the definition: laws that later crates cite. They stand in specs/.
#![tactic(auto)]
