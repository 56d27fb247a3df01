// booleans
#![tactic(auto)]
