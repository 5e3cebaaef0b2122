// The definitions and laws are in specs/ and proofs/; the code of reason is in crate `reason`.
#![tactic(auto)]
