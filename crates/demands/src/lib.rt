// The demands of document 00 as predicates over any reader and writer (specs/), ours and others held against them (proofs/). No code.
#![tactic(auto)]
