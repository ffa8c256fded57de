// What a run writes: the answers of calls, and what a broker holds. docs/SCENARIOS.md has the forms.
#![tactic(auto)]

pub mod answer;
pub mod form;
pub mod state;
