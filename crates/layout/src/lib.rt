// Document 01's reading and writing as definitions (specs/), and what follows from them alone (proofs/). No code: crates above cite it.
#![tactic(auto)]
