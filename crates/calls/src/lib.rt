// A line of a scenario as a call: its verb, its scalars and its lists. docs/SCENARIOS.md has the forms.
#![tactic(auto)]

pub mod call;
pub mod list;
pub mod verb;
