// What is promised of the whole monitor: the statements are in specs/, their proofs in proofs/. No code.
#![tactic(auto)]
