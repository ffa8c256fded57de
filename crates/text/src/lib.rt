// Text in and out: standard input's lines as calls, and what keeps a run from its end.
// docs/SCENARIOS.md has the forms.
#![tactic(auto)]

pub mod failed;
pub mod input;
pub mod owned_input;
