// The text of a table, written to a lent buffer.
ghost use Rattle.std.specs.Prelude.{◌≡◌, ◌≤◌, ◌<◌, ◌+◌, [], ◌∷◌, ◌++◌, length, take};
ghost use Rattle.lists.specs.Lists.{given};
ghost use Rattle.lines.specs.Lines.{line_text, line_for, newline};
ghost use Rattle.lines.specs.Writing.{table_text, table_fault, Puts, WritesTable};

use market::fault::Fault;
use market::quote::Quote;
use market::table::{ReadTable, Table};
use numerals::spelled;
use numerals::spelled::Spelled;

// Puts a field and the byte that ends it behind the first `at` bytes, and answers where the next
// starts. No struct holds the buffer and the place: `Puts` says both before and both after, and it
// would say them of a struct's two fields.
fn put_field(out: &mut [u8], at: usize, field: Spelled, end: u8) -> usize
    requires { (field.count ≤ 20) × (at + field.count < length out.old) }
    ensures { Puts (take field.count field.bytes ++ (end ∷ [])) at out.old result out.new }
{
    let n = field.count;
    out[at..at + n].copy_from_slice(&field.bytes[..n]);
    out[at + n] = end;
    at + n + 1
}

// Puts the line of a symbol's row. The symbol is a place of the table: below 256 it has at most three
// digits, and its line 59 bytes.
fn put_line(out: &mut [u8], at: usize, symbol: u64, q: Quote) -> usize
    requires { (symbol < 256) × (at + 59 ≤ length out.old) }
    ensures puts { Puts (line_text (line_for symbol q) ++ newline) at out.old result out.new }
    ensures upper_bound { result ≤ at + 59 }
{
    let dated = put_field(out, at, spelled::decimal_text(symbol), b',');
    let bid = put_field(out, dated, spelled::date_text(q.date), b',');
    let ask = put_field(out, bid, spelled::float_text(q.bid), b',');
    put_field(out, ask, spelled::float_text(q.ask), b'\n')
}

// The same where the symbol has a row; else nothing.
fn put_row(out: &mut [u8], at: usize, symbol: u64, row: Option<Quote>) -> usize
    requires { (symbol < 256) × (at + 59 ≤ length out.old) }
    ensures puts { Puts (given row [] (λ q. line_text (line_for symbol q) ++ newline)) at out.old result out.new }
    ensures upper_bound { result ≤ at + 59 }
{
    match row {
        Some(q) => put_line(out, at, symbol, q),
        None => at,
    }
}

// Puts the lines of the rows, by ascending symbol.
fn put_rows(t: Table, out: &mut [u8]) -> usize
    requires { 15104 ≤ length out.old }
    ensures { Puts (table_text t) 0 out.old result out.new }
{
    let mut at: usize = 0;
    for (symbol, row) in t.rows.iter().enumerate() {
        at = put_row(out, at, symbol as u64, *row);
    }
    at
}

// 15 for a buffer of fewer than 15,104 bytes, then what the table's rows drew.
#[tactic(auto, unfolding(market::specs::Faults::drawn))]
fn write_fault(room: usize, table: ReadTable) -> Option<Fault>
    ensures { result ≡ table_fault room table.table }
{
    if room < 15104 {
        return Some(Fault::ListTooShort);
    }
    table.fault()
}

// Writes the text of a table to the buffer's first bytes, and answers how many they are.
#[tactic(auto, using(crate::proofs::Texts::fault_room))]
pub fn write(table: ReadTable, out: &mut [u8]) -> Result<usize, Fault>
    ensures { WritesTable table.table out.old result out.new }
{
    if let Some(fault) = write_fault(out.len(), table) {
        return Err(fault);
    }
    Ok(put_rows(table.table(), out))
}
