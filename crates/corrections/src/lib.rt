// Corrected quotes: from the vendor's rows, in any order and with a revision each, one ascending table.
#![tactic(auto)]

pub mod corrected;
mod faults;
mod newest;
pub mod order;
