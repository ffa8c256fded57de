// A portfolio by value: its state and value, the sales of a liquidation, the orders of weights, trades
// booked, and the cost basis.
#![tactic(auto)]

pub mod basis;
pub mod booking;
pub mod liquidate;
pub mod list;
pub mod state;
pub mod value;
pub mod weigh;
