// The plain ledger, demand 3 and the examples of document 01. It has no code.
#![tactic(auto)]
