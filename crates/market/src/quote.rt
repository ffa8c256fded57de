// Quotes: the rows of a table, and the numbers that a row draws.
ghost use Rattle.std.specs.Prelude.{◌≡◌, ◌&&◌};
ghost use Rattle.market.specs.Quotes.{blank_quote, is_price};

use crate::row::Row;

#[derive(Clone, Copy, Default, PartialEq)]
pub struct Quote {
    pub symbol: u32,
    pub bid: f64,
    pub ask: f64,
    pub date: i64,
}

// Finite and above zero.
fn is_price(x: f64) -> bool
    ensures { result ≡ is_price x }
{
    floats::finite(x) && x > 0.0
}

impl Quote {
    // A row that is in no table.
    pub fn blank() -> Quote
        ensures { result ≡ blank_quote }
    {
        Quote::default()
    }
}

impl Row for Quote {
    ghost symbol_of = { λ q. q.symbol };

    ghost sound = { λ q. is_price q.bid && is_price q.ask };

    fn symbol(&self) -> u32 {
        self.symbol
    }

    fn is_sound(&self) -> bool {
        is_price(self.bid) && is_price(self.ask)
    }
}
