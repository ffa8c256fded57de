// The row of each symbol that no other of them supersedes, by symbol.
ghost use Rattle.std.specs.Prelude.{◌≡◌};
ghost use Rattle.market.specs.Quotes.{listing};
ghost use Rattle.corrections.specs.Places.{KeepsNewest, takes_place, listed_from};

use crate::order;
use market::quote::Quote;
use market::table::QuoteRows;
use market::vendor_quote::VendorQuote;

// Does `row` take the place of `old`, the row that stands there, if one does?
fn takes_place(old: Option<VendorQuote>, row: VendorQuote) -> bool
    ensures { result ≡ takes_place old row }
{
    match old {
        None => true,
        Some(old) => order::newer(row, old),
    }
}

// The newest row of each symbol, at the symbol's place.
pub(crate) fn newest(rows: &[VendorQuote]) -> [Option<VendorQuote>; 256]
    ensures { KeepsNewest rows.now result }
{
    let mut kept = [None; 256];
    for row in rows {
        let at = row.symbol as usize;
        if at < 256 && takes_place(kept[at], *row) {
            kept[at] = Some(*row);
        }
    }
    kept
}

// The rows that stand, in the order of their symbols.
pub(crate) fn listed(kept: &[Option<VendorQuote>; 256]) -> QuoteRows
    ensures { result ≡ listing (listed_from kept.now) }
{
    let mut rows = [Quote::blank(); 257];
    for (n, row) in kept.iter().copied().flatten().enumerate() {
        rows[n] = row.quote();
    }
    let count = kept.iter().copied().flatten().count();
    QuoteRows { rows, count }
}
