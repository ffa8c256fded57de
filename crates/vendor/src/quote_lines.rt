// Quote lines, read to a lent table and written from one to a lent buffer.
ghost use Rattle.vendor.specs.Answers.{AnswersRead, AnswersWrite};

use crate::store::store_rows;
use lines::read::read;
use lines::write::write;
use market::fault::Fault;
use market::quote::Quote;
use market::table::ReadTable;

// Reads the lines of a text to the table's first places.
#[tactic(auto, using(crate::proofs::Answering::read_refused, crate::proofs::Answering::read_within))]
pub fn read_lines(input: &[u8], table: &mut [Quote]) -> Result<usize, Fault>
    ensures { AnswersRead input.now table.old result table.new }
{
    // No `?`, which would copy the rows twice.
    match read(input, table.len()) {
        Ok(x) => Ok(store_rows(&x, table)),
        Err(fault) => Err(fault),
    }
}

// Writes the text of a table to the buffer's first bytes.
pub fn write_lines(table: &[Quote], out: &mut [u8]) -> Result<usize, Fault>
    ensures { AnswersWrite table.now out.old result out.new }
{
    write(ReadTable::of(table), out)
}
