// What the pass answers: definitions and laws, with demand 2. The code is in the crates above.
#![tactic(auto)]
