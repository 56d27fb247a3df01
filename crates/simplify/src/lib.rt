// simplify
#![tactic(auto)]
