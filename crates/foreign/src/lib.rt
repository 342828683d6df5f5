// The third demand for calls through the C interface: the statements are in specs/, their proofs in proofs/. No code.
#![tactic(auto)]
