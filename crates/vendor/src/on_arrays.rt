// Quote lines for a caller whose table is an array: its first rows are lent.
ghost use Rattle.std.specs.Prelude.{◌≡◌, min, take};
ghost use Rattle.vendor.specs.Answers.{read_on, AnswersWrite};

use crate::quote_lines::{read_lines, write_lines};
use market::fault::Fault;
use market::quote::Quote;

// An answer, with the table that was lent.
#[derive(Clone, Copy)]
pub struct TableRead {
    pub answer: Result<usize, Fault>,
    pub rows: [Quote; 257],
}

// Reads lines to the first `room` rows of a blank table.
pub fn read_on(input: &[u8], room: usize) -> TableRead
    ensures { result ≡ read_on input.now room }
{
    let n = room.min(257);
    let blank = Quote::blank();
    let mut rows = [blank; 257];
    let answer = read_lines(input, &mut rows[..n]);
    TableRead { answer, rows }
}

// Writes the text of the array's first `n` rows, of all where `n` is more.
pub fn write_on(rows: &[Quote; 257], n: usize, out: &mut [u8]) -> Result<usize, Fault>
    ensures { AnswersWrite (take (min n 257) rows.now) out.old result out.new }
{
    write_lines(&rows[..n.min(257)], out)
}
