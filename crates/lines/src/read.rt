// A table, read off the lines of an input or of a part of one.
ghost use Rattle.std.specs.Prelude.{◌≡◌};
ghost use Rattle.lines.specs.Reading.{lines_read, read_of};

use crate::line;
use market::fault::Fault;
use market::quote::Quote;
use market::row::Row;

// A table that was read, declared by crate `market` and named here as well.
pub use market::table::QuoteRows;

// The rows of the lines, or what one of them draws. The rows so far stand in an array, and `n` counts
// them: there is no heap here, and both are what `QuoteRows` has in the end.
fn lines_read(input: &[u8]) -> Result<QuoteRows, Fault>
    ensures { result ≡ lines_read input.now }
{
    let mut rows = [Quote::blank(); 257];
    let mut n: usize = 0;
    let mut least: u32 = 0;
    for part in input.split_inclusive(|b| *b == b'\n') {
        let text = part.strip_suffix(b"\n").ok_or(Fault::MalformedLine)?;
        let q = line::line(text).ok_or(Fault::MalformedLine)?;
        if let Some(fault) = q.fault(least) {
            return Err(fault);
        }
        rows[n] = q;
        n += 1;
        least = q.symbol + 1;
    }
    Ok(QuoteRows { rows, count: n })
}

// The rows of a text, for a lent table of `room` rows.
#[tactic(auto, unfolding(market::specs::Faults::drawn, crate::specs::Reading::read_fault, crate::specs::Reading::rows_read, crate::specs::Reading::lines_read, crate::specs::Reading::read_of))]
pub fn read(input: &[u8], room: usize) -> Result<QuoteRows, Fault>
    ensures { result ≡ read_of room input.now }
{
    if room < 256 {
        return Err(Fault::ListTooShort);
    }
    if input.len() > 65536 {
        return Err(Fault::TextTooLong);
    }
    lines_read(input)
}
