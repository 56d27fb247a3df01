// formerquotes
#![tactic(auto)]
