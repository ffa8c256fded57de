// A tick: the resting orders that meet their rule trade, then the waiting ones are booked.
ghost use Rattle.std.specs.Prelude.{◌≡◌, ◌+◌, ◌≤◌, length, None, Some};
ghost use Rattle.market.specs.Faults.{unless_drawn};
ghost use Rattle.exchange.specs.Tick.{no_trades, executed, execute_of, side_of, booking, book_side_of, book_waiting_of, counts_after, refused_with, ticked_with, tick_of, tick_for_of, answer_of};

use crate::state::{Booked, Counts, UistV1};
use market::fault::{Fault, unless_drawn};
use market::table::{ReadTable, Table};
use market::trade::{self, Trade};

// The new state, the trades in the first `count` places of `trades`, the log's row where the first
// of them goes, and what was drawn. The trades stand in fixed memory, with their count: `ArrayVec` is no
// `Copy`, as this answer is. A refused one has count 0, as `tick` has one way through.
#[derive(Clone, Copy)]
pub struct Ticked {
    pub exchange: UistV1,
    pub trades: [Trade; 1024],
    pub count: usize,
    pub first: usize,
    pub fault: Option<Fault>,
}

// What a tick on a lent log answers: the new state, how many orders traded, and what was drawn. The count
// is 0 then; the three stand side by side, so that the contract has an equation for each.
#[derive(Clone, Copy)]
pub struct TickAnswer {
    pub exchange: UistV1,
    pub traded: usize,
    pub fault: Option<Fault>,
}

// What a tick in place tells beside the state, which it changes: as in `Ticked`.
#[derive(Clone, Copy)]
pub struct Traded {
    pub trades: [Trade; 1024],
    pub count: usize,
    pub first: usize,
    pub fault: Option<Fault>,
}

// How many resting orders stay, and how many trade.
#[derive(Clone, Copy)]
struct Tally {
    kept: usize,
    count: usize,
}

// How many orders of a book rest, and how many numbers were given.
#[derive(Clone, Copy)]
struct Numbered {
    at: usize,
    ids: u64,
}

#[tactic(auto, unfolding(crate::specs::Tick::no_trades))]
fn no_trades() -> [Trade; 1024]
    ensures { result ≡ no_trades }
{
    let t = Trade::blank();
    [t; 1024]
}

// Trades the resting orders that meet their rule, in book order. What stays moves up in the book itself,
// never past the order that a turn reads: hence the places. That no more rest than the book has places,
// and that no trades stand there yet, is asked for: counts are plain data, and a tick's test for 16
// shows it.
fn execute_orders(
    book: &mut [Booked; 1024],
    resting: usize,
    quotes: &Table,
    trades: &mut [Trade; 1024],
) -> Tally
    requires small { resting ≤ 1024 }
    requires blank { trades.old ≡ no_trades }
    ensures { executed book.new result trades.new ≡ execute_of book.old resting quotes.now }
{
    let mut kept: usize = 0;
    let mut count: usize = 0;
    for i in 0..resting {
        let b = book[i];
        match trade::execute(b.order, quotes.row(b.order.symbol)) {
            Some(t) => {
                trades[count] = t;
                count += 1;
            }
            None => {
                book[kept] = b;
                kept += 1;
            }
        }
    }
    Tally { kept, count }
}

// Books the waiting orders of one side behind those that are booked, in order of taking. That they
// have places is asked for, as it follows from a tick's test for 16.
fn book_side(book: &mut [Booked; 1024], from: Numbered, waiting: &[Booked], sells: bool) -> Numbered
    requires { from.at + length (side_of sells waiting.now) ≤ 1024 }
    ensures { booking book.new result ≡ book_side_of (booking book.old from) (side_of sells waiting.now) }
{
    let mut at = from.at;
    let mut ids = from.ids;
    for w in waiting {
        if w.order.is_sell() == sells {
            book[at] = Booked::numbered(ids, w.order);
            at += 1;
            ids = ids.wrapping_add(1);
        }
    }
    Numbered { at, ids }
}

// Books the waiting orders, which stand in the book from a place on, behind those that are booked:
// sells first, then buys. They are read off a copy of the book, as the sells among them may go where
// buys still wait. What is asked follows from a tick's test for 16, too.
fn book_waiting(book: &mut [Booked; 1024], behind: Numbered, from: usize, waits: usize) -> Numbered
    requires { (from + waits ≤ 1024) × (behind.at ≤ from) }
    ensures { booking book.new result ≡ book_waiting_of book.old from waits (booking book.old behind) }
{
    let old = *book;
    let waiting = &old[from..from + waits];
    let sold = book_side(book, behind, waiting, true);
    book_side(book, sold, waiting, false)
}

impl Counts {
    // The counts after a tick that booked `resting` orders up to the number `ids` and traded `count`;
    // as they were where something is drawn. That no more are logged than were taken follows from the
    // test for 16, and is asked for.
    fn after(self, fault: Option<Fault>, resting: usize, ids: u64, count: usize) -> Counts
        requires { fault ≡ None → self.logged + count ≤ self.taken }
        ensures { result ≡ unless_drawn fault (counts_after self resting ids count) self }
    {
        if fault.is_some() {
            return self;
        }
        Counts {
            resting,
            waits: 0,
            ids,
            logged: self.logged + count as u64,
            ..self
        }
    }
}

// No trades, the state as it was.
fn refused(e: UistV1, fault: Fault) -> Ticked
    ensures { result ≡ refused_with e (Some fault) }
{
    Ticked {
        exchange: e,
        trades: no_trades(),
        count: 0,
        first: 0,
        fault: Some(fault),
    }
}

impl UistV1 {
    // A tick in place: the book is copied only where orders wait. One way through, refused or not: a tick that is refused
    // trades and books none.
    pub fn tick_in_place(&mut self, quotes: &ReadTable) -> Traded
        ensures { ticked_with self.new result ≡ tick_of self.old quotes.now.table }
    {
        let table = quotes.as_table();
        let counts = self.counts;
        let fault = counts.fault().or(table.fault);
        let resting = unless_drawn(fault, counts.resting, 0);
        let waits = unless_drawn(fault, counts.waits, 0);
        let mut trades = no_trades();
        let tally = execute_orders(&mut self.book, resting, table, &mut trades);
        let behind = Numbered {
            at: tally.kept,
            ids: counts.ids,
        };
        let booked = if waits == 0 {
            behind
        } else {
            book_waiting(&mut self.book, behind, resting, waits)
        };
        self.counts = counts.after(fault, booked.at, booked.ids, tally.count);
        Traded {
            trades,
            count: tally.count,
            first: unless_drawn(fault, counts.logged as usize, 0),
            fault,
        }
    }

    // A tick by value.
    pub fn tick(mut self, quotes: ReadTable) -> Ticked
        ensures { result ≡ tick_of self quotes.table }
    {
        let Traded {
            trades,
            count,
            first,
            fault,
        } = self.tick_in_place(&quotes);
        Ticked {
            exchange: self,
            trades,
            count,
            first,
            fault,
        }
    }

    // A tick for a log of this length.
    #[tactic(auto, unfolding(crate::specs::Tick::tick_for_of))]
    pub fn tick_for(self, quotes: ReadTable, log_length: usize) -> Ticked
        ensures { result ≡ tick_for_of self quotes.table log_length }
    {
        if let Some(fault) = self.counts.fault_for(log_length) {
            return refused(self, fault);
        }
        self.tick(quotes)
    }
}

impl Ticked {
    pub fn answer(self) -> TickAnswer
        ensures { result ≡ answer_of self }
    {
        TickAnswer {
            exchange: self.exchange,
            traded: self.count,
            fault: self.fault,
        }
    }
}
