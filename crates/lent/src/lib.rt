// The functions whose lists are lent as slices of structs: a table is read, a log written, and the
// exchange's ticks and the broker's calls run on both.
#![tactic(auto)]

pub mod uist;
pub mod uist_v1;
