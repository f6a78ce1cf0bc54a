// Document 01's loads, computed from the definitions of layout (proofs/). No code.
#![tactic(auto)]
