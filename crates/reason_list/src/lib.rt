// The definitions and laws are in specs/ and proofs/; the code that makes the list is in crate `greedy`.
#![tactic(auto)]
