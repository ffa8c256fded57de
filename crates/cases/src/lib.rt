// A second table of worked cases, for the rules that the contracts and the plain ledger share. It has no code.
#![tactic(auto)]
