// Quote lines: the text of a table, and the reading of it. Nothing here reads or writes files.
#![tactic(auto)]

pub mod line;
pub mod read;
pub mod write;
