// The vendor's rows corrected to one table, for a caller whose lists are arrays: the first rows of both
// are lent.
ghost use Rattle.std.specs.Prelude.{◌≡◌};
ghost use Rattle.arrays.specs.Corrects.{correct_on};

use crate::read::no_quotes;
use crate::{Lent, lend};
use market::fault::Fault;
use market::quote::Quote;
use market::vendor_quote::VendorQuote;
use vendor::correct::correct_quotes;

// Corrects the first `n` of the vendor's rows, at most 1,100, to the first `room` places of a blank
// table. The caller's rows are read into an array of fixed size, so that a run needs no heap for them.
pub fn correct_on(
    rows: &[VendorQuote; 1100],
    n: usize,
    room: usize,
) -> Lent<Result<usize, Fault>, [Quote; 1024]>
    ensures { result ≡ correct_on rows.now n room }
{
    let given = &rows[..n.min(1100)];
    let mut list = no_quotes();
    let answer = lend(&mut list, room, |table| correct_quotes(given, table));
    Lent { answer, list }
}
