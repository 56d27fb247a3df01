// runs
#![tactic(auto)]
