// The vendor's rows: a quote with a revision.
ghost use Rattle.std.specs.Prelude.{◌≡◌};
ghost use Rattle.market.specs.Faults.{drawn};
ghost use Rattle.market.specs.VendorQuotes.{blank_vendor, quote_of, vendor_row_tests};

use crate::fault::Fault;
use crate::quote::Quote;
use crate::row::Row;

// A quote's fields are repeated: document 02 gives the vendor's row one more than a quote, and callers
// name the five one beside the other.
#[derive(Clone, Copy, Default)]
pub struct VendorQuote {
    pub symbol: u32,
    pub bid: f64,
    pub ask: f64,
    pub date: i64,
    pub revision: u8,
}

impl VendorQuote {
    // A row that nobody gave.
    pub fn blank() -> VendorQuote
        ensures { result ≡ blank_vendor }
    {
        VendorQuote::default()
    }

    // The row of a table, which has no revision.
    pub fn quote(self) -> Quote
        ensures { result ≡ quote_of self }
    {
        Quote {
            symbol: self.symbol,
            bid: self.bid,
            ask: self.ask,
            date: self.date,
        }
    }

    // 1 and 2 of a row. No symbol is below 0, so 3 is not drawn.
    pub fn fault(self) -> Option<Fault>
        ensures { result ≡ drawn (vendor_row_tests self) }
    {
        self.quote().fault(0)
    }
}
