// One ascending table from the vendor's rows: for each symbol the latest date wins, then the highest
// revision.
ghost use Rattle.std.specs.Prelude.{◌≡◌, length};
ghost use Rattle.corrections.specs.Corrections.{corrected_for};

use crate::{faults, newest};
use market::fault::Fault;
use market::table::QuoteRows;
use market::vendor_quote::VendorQuote;

// The table of these rows, for a lent table of `room` rows.
#[tactic(auto, using(crate::proofs::Drawing::refused, crate::proofs::Drawing::corrected_is))]
pub fn corrected(rows: &[VendorQuote], room: usize) -> Result<QuoteRows, Fault>
    ensures { result ≡ corrected_for room (length rows.now) rows.now }
{
    if let Some(fault) = faults::correct_fault(rows, room) {
        return Err(fault);
    }
    let kept = newest::newest(rows);
    Ok(newest::listed(&kept))
}
