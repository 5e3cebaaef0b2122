// What a closure costs (document 02, request 2.4): definitions and laws.
#![tactic(auto)]
