// When one of the vendor's rows is newer than another, and when two are alike.
ghost use Rattle.std.specs.Prelude.{◌≡◌};
ghost use Rattle.corrections.specs.Corrections.{newer, alike};

use market::vendor_quote::VendorQuote;

// Has `a` a later date than `b`, or the same date and a higher revision?
pub fn newer(a: VendorQuote, b: VendorQuote) -> bool
    ensures { result ≡ newer a b }
{
    (a.date, a.revision) > (b.date, b.revision)
}

// Are two rows alike in symbol, date and revision?
pub fn alike(a: VendorQuote, b: VendorQuote) -> bool
    ensures { result ≡ alike a b }
{
    (a.symbol, a.date, a.revision) == (b.symbol, b.date, b.revision)
}
