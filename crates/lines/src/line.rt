// One line, read: its fields are what its commas separate.
ghost use Rattle.std.specs.Prelude.{◌≡◌, min};
ghost use Rattle.lines.specs.Lines.{before, behind, line_in};
ghost use Rattle.lines.specs.Reading.{capped_row};

use market::quote::Quote;
use numerals::decimal;
use words::{number, word};

// The first field, and what stands behind the comma that ends it; nothing does where there is no comma.
// By `splitn` it was tried, and the proof did not close: what `splitn` gives in turn has no lemma in std.
fn field(s: &[u8]) -> (&[u8], &[u8])
    ensures first { result.0.now ≡ before s.now }
    ensures rest { result.1.now ≡ behind s.now }
{
    let end = word::next(s, 0, b',', true);
    let start = (end + 1).min(s.len());
    (&s[..end], &s[start..])
}

fn capped(n: u64) -> u32
    ensures { result ≡ min n 256 }
{
    n.min(256) as u32
}

// The row that a line, without its newline, says. A symbol above 255 is 256 here.
pub fn line(s: &[u8]) -> Option<Quote>
    ensures { result ≡ capped_row (line_in s.now) }
{
    let (symbol, rest) = field(s);
    let (date, rest) = field(rest);
    let (bid, ask) = field(rest);
    let symbol = decimal::decimal(symbol)?;
    let date = decimal::date(date)?;
    let bid = number::float(bid)?;
    let ask = number::float(ask)?;
    Some(Quote {
        symbol: capped(symbol),
        bid,
        ask,
        date,
    })
}
