// Rows, written to a lent table.
ghost use Rattle.std.specs.Prelude.{◌≡◌, ◌≤◌, length, take};
ghost use Rattle.lists.specs.Lists.{over};

use market::quote::Quote;
use market::table::QuoteRows;

// Stores the rows in the table's first places, and answers how many they are.
pub(crate) fn store_rows(x: &QuoteRows, table: &mut [Quote]) -> usize
    requires { (x.now.count ≤ 257) × (x.now.count ≤ length table.old) }
    ensures count { result ≡ x.now.count }
    ensures table_is { table.new ≡ over (take x.now.count x.now.rows) table.old }
{
    slices::store(table, 0, &x.rows[..x.count]);
    x.count
}
