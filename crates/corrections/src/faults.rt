// What the vendor's rows draw: 15 and 22 of the lists, 1 and 2 row by row, then 21.
ghost use Rattle.std.specs.Prelude.{◌≡◌, length};
ghost use Rattle.lists.specs.Lists.{gather};
ghost use Rattle.market.specs.Faults.{drawn};
ghost use Rattle.market.specs.VendorQuotes.{vendor_row_tests};
ghost use Rattle.corrections.specs.Corrections.{alike_among, some_alike, correct_fault};

use crate::order;
use market::fault::Fault;
use market::vendor_quote::VendorQuote;

// How many rows are taken.
const MOST: usize = 1024;

// 1 and 2 of the rows, in their order.
fn rows_fault(rows: &[VendorQuote]) -> Option<Fault>
    ensures { result ≡ drawn (gather vendor_row_tests rows.now) }
{
    rows.iter().find_map(|row| row.fault())
}

// Is one of `others` like `row`?
fn alike_among(row: VendorQuote, others: &[VendorQuote]) -> bool
    ensures { result ≡ alike_among row others.now }
{
    others.iter().any(|other| order::alike(row, *other))
}

// Are some two of the rows alike? Each is compared with those behind it.
fn some_alike(rows: &[VendorQuote]) -> bool
    ensures { result ≡ some_alike rows.now }
{
    for (i, row) in rows.iter().enumerate() {
        if alike_among(*row, &rows[i + 1..]) {
            return true;
        }
    }
    false
}

// What the rows draw for a table of `room` rows.
#[tactic(auto, using(crate::proofs::Drawing::short_table, crate::proofs::Drawing::many_rows, crate::proofs::Drawing::row_drew, crate::proofs::Drawing::then_alike))]
pub(crate) fn correct_fault(rows: &[VendorQuote], room: usize) -> Option<Fault>
    ensures { result ≡ correct_fault room (length rows.now) rows.now }
{
    if room < 256 {
        return Some(Fault::ListTooShort);
    }
    if rows.len() > MOST {
        return Some(Fault::TooManyRows);
    }
    if let Some(fault) = rows_fault(rows) {
        return Some(fault);
    }
    some_alike(rows).then_some(Fault::AlikeRows)
}
