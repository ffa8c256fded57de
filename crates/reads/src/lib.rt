// The broker's lists, read to lent lists: positions, holdings, pending orders, quotes and trade costs
// (`get_positions` and its like of the Rust).
#![tactic(auto)]

pub mod collected;
pub mod uist;
