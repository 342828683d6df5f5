// Lists of calls on a session, abstract in what the session has inside: the statements are in specs/, their proofs in proofs/. No code.
#![tactic(auto)]
