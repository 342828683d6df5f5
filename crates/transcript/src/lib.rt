// No code: what the program watch prints, as a theorem.
#![tactic(auto)]
