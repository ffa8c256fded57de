// The market's types: orders, quotes, a vendor's rows, trades and weights, a table of quotes by symbol,
// and the tests of an order's own fields and of a table's rows.
#![tactic(auto)]

pub mod fault;
pub mod order;
pub mod quote;
pub mod row;
pub mod table;
pub mod trade;
pub mod vendor_quote;
pub mod weight;
