// The definitions of the store, in specs/, and its laws, in proofs/ (document 02, request 2.6). The code is in the crates above.
#![tactic(auto)]
