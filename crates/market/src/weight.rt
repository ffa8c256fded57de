// Weights of a model portfolio, and the numbers that rows of them draw.
ghost use Rattle.std.specs.Prelude.{◌≡◌, ◌≤◌, length, replicate};
ghost use Rattle.lists.specs.Lists.{over};
ghost use Rattle.market.specs.Weights.{blank_weight, weights_of, weighed};
ghost use Rattle.std.specs.Float.Ieee.Scale.{finite};

use crate::fault::Fault;
use crate::row::{Row, RowsRead};

#[derive(Clone, Copy, Default)]
pub struct Weight {
    pub symbol: u32,
    pub weight: f64,
}

// Weights by ascending symbol: the first `count` of the rows that were given, in fixed memory, since
// nothing is allocated here; a list of `arrayvec` is no `Copy`, and these are copied. `fault` is the
// number that the first bad row drew, beside the rows before it, which are read as those of a table are.
// The rows from the bad one on are kept too, so that a caller can show it; at most 256 rows ascend, so
// it stands among the first 257. The fields are private, so only reading rows makes one.
#[derive(Clone, Copy)]
pub struct Weights {
    rows: [Weight; 257],
    count: usize,
    fault: Option<Fault>,
}

impl Row for Weight {
    ghost symbol_of = { λ w. w.symbol };

    ghost sound = { λ w. finite w.weight };

    fn symbol(&self) -> u32 {
        self.symbol
    }

    fn is_sound(&self) -> bool {
        floats::finite(self.weight)
    }
}

impl Weight {
    // A row that nobody gave.
    pub fn blank() -> Weight
        ensures { result ≡ blank_weight }
    {
        Weight::default()
    }
}

// These rows, in the first places of an array. They are copied one by one: of a copy into a part of a
// local array no tactic finds what it leaves. That they fit is asked of `Weights::of` alone, which cuts
// them to that many; a type would have to prove it at the same place.
fn kept(rows: &[Weight]) -> [Weight; 257]
    requires { length rows.now ≤ 257 }
    ensures { result ≡ over rows.now (replicate 257 blank_weight) }
{
    let blank = Weight::blank();
    let mut kept = [blank; 257];
    for (i, w) in rows.iter().enumerate() {
        kept[i] = *w;
    }
    kept
}

impl Weights {
    // The weights of these rows.
    pub fn of(rows: &[Weight]) -> Weights
        ensures { result ≡ weights_of rows.now }
    {
        let read = RowsRead::of(rows);
        Weights {
            rows: kept(&rows[..rows.len().min(257)]),
            count: read.count,
            fault: read.fault,
        }
    }

    // The rows that were read.
    pub fn rows(&self) -> &[Weight]
        ensures rows { result.now ≡ weighed self.now }
        ensures few { length result.now ≤ 256 }
    {
        let count = self.count.min(256);
        &self.rows[..count]
    }

    // How many rows were read.
    pub fn count(&self) -> usize
        ensures { result ≡ self.now.count }
    {
        self.count
    }

    // The first 257 rows that were given, and blank ones behind them; those from `count` on do not count.
    pub fn given(&self) -> &[Weight; 257]
        ensures { result.now ≡ self.now.rows }
    {
        &self.rows
    }

    // The number that the rows drew.
    pub fn fault(self) -> Option<Fault>
        ensures { result ≡ self.fault }
    {
        self.fault
    }
}
