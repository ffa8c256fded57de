// The vendor's tables: read to lent tables, written from them, and made of rows that correct each other.
#![tactic(auto)]

pub mod correct;
pub mod on_arrays;
pub mod quote_lines;
mod store;
