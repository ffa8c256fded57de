// Rows that ascend by symbol, of quotes or of weights, read up to the first that draws a number.
ghost use Rattle.std.specs.Prelude.{◌≡◌, ℕ, Bool};
ghost use Rattle.market.specs.Faults.{drawn};
ghost use Rattle.market.specs.Rows.{supplier_tests};
ghost use Rattle.market.specs.Reading.{ReadsRows};

use crate::fault::Fault;

// A row of a symbol, and whether its values are as they must be.
pub trait Row {
    ghost symbol_of: { Self → ℕ };

    ghost sound: { Self → Bool };

    fn symbol(&self) -> u32
        ensures { result ≡ symbol_of self.now };

    fn is_sound(&self) -> bool
        ensures { result ≡ sound self.now };

    // 1, 2 and 3 of the row; `least` is the least symbol that ascends.
    #[tactic(auto, unfolding(crate::specs::Faults::drawn))]
    fn fault(&self, least: u32) -> Option<Fault>
        ensures { result ≡ drawn (supplier_tests least (symbol_of self.now) (sound self.now)) }
    {
        if self.symbol() > 255 {
            return Some(Fault::UnknownSymbol);
        }
        if !self.is_sound() {
            return Some(Fault::BadValue);
        }
        if self.symbol() < least {
            return Some(Fault::NotAscending);
        }
        None
    }
}

// How many rows stand before the first that draws a number, and that number. Both are told: the rows
// before a bad one are kept, and so no `Result`.
#[derive(Clone, Copy)]
pub struct RowsRead {
    pub count: usize,
    pub fault: Option<Fault>,
}

impl RowsRead {
    pub fn of<R: Row>(rows: &[R]) -> RowsRead
        ensures { ReadsRows R.symbol_of R.sound rows.now result }
    {
        let mut least: u32 = 0;
        for (i, row) in rows.iter().enumerate() {
            if let Some(fault) = row.fault(least) {
                return RowsRead {
                    count: i,
                    fault: Some(fault),
                };
            }
            least = row.symbol() + 1;
        }
        RowsRead {
            count: rows.len(),
            fault: None,
        }
    }
}
