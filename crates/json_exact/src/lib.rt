// no functions: that the reader takes exactly the texts of the rules
#![tactic(auto)]
