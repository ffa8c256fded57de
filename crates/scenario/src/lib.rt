// Scenarios: a run takes one line after the other, makes its call and shows what the broker holds.
// docs/SCENARIOS.md has the form.
#![tactic(auto)]

mod output;
pub mod run;
pub mod show;
pub mod view;
