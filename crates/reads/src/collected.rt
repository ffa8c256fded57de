// The rows of a broker's symbols: the row of each symbol at its place, where the symbol has one.
ghost use Rattle.std.specs.Prelude.{◌≡◌, length, ◌≤◌, ◌<◌};
ghost use Rattle.lists.specs.Lists.{gather, holds, over};
ghost use Rattle.reads.specs.Rows.{holding_of};

// How much of a symbol is held, or pending.
#[derive(Clone, Copy)]
pub struct Holding {
    pub symbol: u32,
    pub quantity: f64,
}

impl Holding {
    // The row of a symbol, which is a place among 256.
    pub(crate) fn of(symbol: usize, quantity: f64) -> Holding
        requires { symbol < 256 }
        ensures { result ≡ holding_of symbol quantity }
    {
        Holding {
            symbol: symbol as u32,
            quantity,
        }
    }
}

// How many symbols have a row.
pub(crate) fn count<T: Copy>(rows: &[Option<T>]) -> usize
    ensures { result ≡ length (gather holds rows.now) }
{
    rows.iter().filter(|row| row.is_some()).count()
}

// The rows that there are, in the first places of the list.
pub(crate) fn store<T: Copy>(rows: &[Option<T>], list: &mut [T])
    requires { length (gather holds rows.now) ≤ length list.old }
    ensures { list.new ≡ over (gather holds rows.now) list.old }
{
    for (n, row) in rows.iter().copied().flatten().enumerate() {
        list[n] = row;
    }
}
