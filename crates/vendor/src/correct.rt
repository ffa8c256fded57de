// The vendor's rows, in any order and with a revision each, made to one ascending table in a lent one.
ghost use Rattle.vendor.specs.Corrects.{AnswersCorrect};

use crate::store::store_rows;
use corrections::corrected::corrected;
use market::fault::Fault;
use market::quote::Quote;
use market::vendor_quote::VendorQuote;

// Makes one ascending table of the vendor's rows, in the table's first places.
#[tactic(auto, using(crate::proofs::Correcting::correct_refused, crate::proofs::Correcting::shown_within))]
pub fn correct_quotes(rows: &[VendorQuote], table: &mut [Quote]) -> Result<usize, Fault>
    ensures { AnswersCorrect rows.now table.old result table.new }
{
    let x = corrected(rows, table.len())?;
    Ok(store_rows(&x, table))
}
