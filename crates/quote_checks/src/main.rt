// Reads and writes quote lines with lists of given sizes, and prints each answer and what the lists
// hold past it, so that a store where none is due is seen.
//
// Standard input is records, each ended by the byte 0x1e. A record's first byte says how much is lent
// for reading and for writing, the rest is the text:
//     r  256 rows, 15,104 bytes     s  255 rows, 15,104 bytes
//     w  256 rows, 15,103 bytes     l  257 rows, 15,105 bytes
// A reader's answer is a line NUMBER ROWS FILLED: the number drawn, or 0, the rows read, and how many
// of all 257 rows are not blank. Where the number is 0 the rows are written. A writer's answer is a
// line NUMBER BYTES LEFT, and the bytes written: LEFT is how many bytes of the lent buffer past
// those are as they were. Last come the answers for long inputs, and for rows that were not read.
#![tactic(auto)]

mod answers;
mod given;
mod records;

use std::io;
use std::io::Read;

// Input past 65,536 bytes is not read.
fn main(rt: HostRuntime) -> io::Result<()> {
    let mut input = Vec::new(rt.alloc());
    rt.stdin().take(65536).read_to_end(&mut input)?;
    records::print_records(&rt, &input)?;
    given::print_long_inputs(&rt)?;
    given::print_refused_rows(&rt)
}
