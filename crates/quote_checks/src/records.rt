// The records of standard input.
use crate::answers::print_read;
use std::io;

// What is lent is said by the first byte; an empty record lends nothing and has no answer.
fn print_record(rt: &impl Print, record: &[u8]) -> io::Result<()> {
    match record.split_first() {
        Some((b's', text)) => print_read(rt, text, 255, 15104),
        Some((b'w', text)) => print_read(rt, text, 256, 15103),
        Some((b'l', text)) => print_read(rt, text, 257, 15105),
        Some((_, text)) => print_read(rt, text, 256, 15104),
        None => Ok(()),
    }
}

// Bytes past the last 0x1e are in no record.
pub fn print_records(rt: &impl Print, input: &[u8]) -> io::Result<()> {
    for part in input.split_inclusive(|b| *b == 0x1e) {
        if let Some(record) = part.strip_suffix(b"\x1e") {
            print_record(rt, record)?;
        }
    }
    Ok(())
}
