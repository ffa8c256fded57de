// Lists: the definitions and laws that the other crates cite. It has no code.
#![tactic(auto)]
