// No functions: laws of a planner's text that is understood, in proofs/.
#![tactic(auto)]
