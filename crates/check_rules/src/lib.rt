// What check answers: definitions and laws. The code is in the crates `check_claim` and `checker`.
#![tactic(auto)]
