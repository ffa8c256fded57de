// The Uist v1 exchange by value: orders are inserted, deleted, and traded and booked by ticks.
#![tactic(auto)]

pub mod delete;
pub mod insert;
pub mod read;
pub mod state;
pub mod tick;
