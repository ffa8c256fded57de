// Inputs that are too long for a record, and tables that no text gives.
use crate::answers::{print_read, print_written};
use market::quote::Quote;
use std::io;

// 20 is drawn above 65,536 bytes, and 15 comes before it.
pub fn print_long_inputs(rt: &impl Print) -> io::Result<()> {
    let long = [b'0'; 65537];
    print_read(rt, &long, 256, 15104)?;
    print_read(rt, &long[..65536], 256, 15104)?;
    print_read(rt, &long, 255, 15104)
}

// The number of two rows, and 15, which comes before it, where the buffer is short.
fn print_two_rows(rt: &impl Print, symbol: u32, bid: f64) -> io::Result<()> {
    let first = Quote {
        symbol: 7,
        bid: 1.0,
        ask: 2.0,
        date: -1,
    };
    let mut rows = [first; 257];
    rows[1].symbol = symbol;
    rows[1].bid = bid;
    print_written(rt, &rows, 2, 15104)?;
    print_written(rt, &rows, 2, 15103)
}

// Rows that do not ascend, a symbol of 256, a bid of zero.
pub fn print_refused_rows(rt: &impl Print) -> io::Result<()> {
    print_two_rows(rt, 7, 1.0)?;
    print_two_rows(rt, 256, 1.0)?;
    print_two_rows(rt, 8, 0.0)
}
