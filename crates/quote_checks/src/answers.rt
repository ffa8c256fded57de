// The answers of the reader and the writer, printed with what the lists hold.
use market::fault::Fault;
use market::quote::Quote;
use std::io;
use vendor::on_arrays::{read_on, write_on};

// One form for both: the number, the count that is answered, and what a list holds.
fn print_line(rt: &impl Print, answer: Result<usize, Fault>, held: usize) -> io::Result<()> {
    match answer {
        Ok(count) => println!(rt; "0 {count} {held}"),
        Err(fault) => println!(rt; "{fault} 0 {held}"),
    }
}

// How many rows are not blank, as a table's are before it is read to. A row that was read is not: its
// prices are above zero. A blank row has no NaN, which would not be equal to itself.
fn filled(rows: &[Quote]) -> usize {
    let blank = Quote::blank();
    rows.iter().filter(|q| **q != blank).count()
}

// How many bytes from the place `at` on are as they were.
fn left(out: &[u8], at: usize) -> usize {
    let rest = out.get(at..).unwrap_or(b"");
    rest.iter().filter(|b| **b == b'#').count()
}

// Writes the first `n` rows to a buffer that is full of `#`.
fn print_written_to(
    rt: &impl Print,
    rows: &[Quote; 257],
    n: usize,
    out: &mut [u8],
) -> io::Result<()> {
    let answer = write_on(rows, n, out);
    let bytes = answer.unwrap_or(0);
    print_line(rt, answer, left(out, bytes))?;
    // No bytes are written where more are answered than the buffer has.
    rt.write_all(out.get(..bytes).unwrap_or(b""))
}

// Writes the first `n` rows to a buffer of `room` bytes, at most 15,105.
pub fn print_written(
    rt: &impl Print,
    rows: &[Quote; 257],
    n: usize,
    room: usize,
) -> io::Result<()> {
    let mut out = [b'#'; 15105];
    match out.get_mut(..room) {
        Some(lent) => print_written_to(rt, rows, n, lent),
        None => Ok(()),
    }
}

// Reads a text to a table of `rows` rows and, where no number is drawn, writes it to a buffer of
// `bytes` bytes.
pub fn print_read(rt: &impl Print, text: &[u8], rows: usize, bytes: usize) -> io::Result<()> {
    let x = read_on(text, rows);
    print_line(rt, x.answer, filled(&x.rows))?;
    match x.answer {
        Ok(n) => print_written(rt, &x.rows, n, bytes),
        Err(_) => Ok(()),
    }
}
