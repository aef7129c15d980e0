// No functions: the theorems over all crates, and the rows for their words. Their statements are in specs/ and proofs/.
#![tactic(auto)]
