// A table of quotes by symbol, made of rows that ascend.
ghost use Rattle.std.specs.Prelude.{◌≡◌, ◌<◌};
ghost use mathlib.Core.List.{foldl};
ghost use Rattle.lists.specs.Lists.{All};
ghost use Rattle.market.specs.Quotes.{empty_table, put_row, row_at, table_of};

use crate::fault::Fault;
use crate::quote::Quote;
use crate::row::RowsRead;

// The row of a symbol stands at the symbol's place. `fault` is the number that the first bad row
// drew. It stands beside the rows, and this is no `Result`: the rows before a bad one are read, as
// `table_of` says, and a call that takes a table draws its number before it reads a row.
#[derive(Clone, Copy)]
pub struct Table {
    pub rows: [Option<Quote>; 256],
    pub fault: Option<Fault>,
}

// The first `count` rows, in fixed memory, since nothing is allocated here. A list of `arrayvec` is no
// `Copy`, as this is to its callers. There is a place more than a table has rows.
#[derive(Clone, Copy)]
pub struct QuoteRows {
    pub rows: [Quote; 257],
    pub count: usize,
}

// A table that was read off rows. Its field is private, so nothing else makes one, and the calls that
// take one need not test its number again.
#[derive(Clone, Copy)]
pub struct ReadTable {
    table: Table,
}

impl Table {
    #[tactic(auto, unfolding(crate::specs::Quotes::empty_table))]
    pub fn empty() -> Table
        ensures { result ≡ empty_table }
    {
        Table {
            rows: [None; 256],
            fault: None,
        }
    }

    // The row for a symbol.
    pub fn row(&self, symbol: u32) -> Option<Quote>
        ensures { result ≡ row_at self.now symbol }
    {
        if symbol < 256 {
            self.rows[symbol as usize]
        } else {
            None
        }
    }
}

// The table with these rows put in. What it asks, its one caller has of rows that were read: they ascend
// below 256.
fn placed(rows: &[Quote]) -> Table
    requires { All (λ q. q.symbol < 256) rows.now }
    ensures { result ≡ foldl put_row empty_table rows.now }
{
    let mut table = Table::empty();
    for q in rows {
        table.rows[q.symbol as usize] = Some(*q);
    }
    table
}

impl ReadTable {
    // The table of no rows.
    pub fn empty() -> ReadTable
        ensures { result.table ≡ empty_table }
    {
        ReadTable {
            table: Table::empty(),
        }
    }

    // What was read.
    pub fn table(self) -> Table
        ensures { result ≡ self.table }
    {
        self.table
    }

    // What was read, lent: a table by value would be copied.
    pub fn as_table(&self) -> &Table
        ensures { result.now ≡ self.now.table }
    {
        &self.table
    }

    // The number that its rows drew.
    pub fn fault(self) -> Option<Fault>
        ensures { result ≡ self.table.fault }
    {
        self.table.fault
    }

    // The table of these rows.
    pub fn of(rows: &[Quote]) -> ReadTable
        ensures { result.table ≡ table_of rows.now }
    {
        let read = RowsRead::of(rows);
        let mut table = placed(&rows[..read.count]);
        table.fault = read.fault;
        ReadTable { table }
    }
}
