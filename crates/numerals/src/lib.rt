// Numbers as quote lines write them, read and written: decimal without spare zeros, dates with their
// sign, and floats by the digits of their bits. Each number has one text.
#![tactic(auto)]

pub mod decimal;
pub mod spelled;
