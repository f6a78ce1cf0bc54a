// Wrong programs, each refuted (proofs/): its outcome on a named load is not what the promise says. No code.
#![tactic(auto)]
