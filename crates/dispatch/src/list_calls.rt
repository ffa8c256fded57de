// The calls on lent lists that need no log: a list of orders, the walk, the reads of the broker's
// lists, and corrected quotes.
ghost use Rattle.std.specs.Prelude.{◌≡◌, true, false};
ghost use Rattle.calls.specs.declared.verb.Verb.TheVariants.{Walk, SendList};

use crate::Caller;
use crate::line_lists::Job;
use arrays::{Lent, clock, correct, read};
use broker::state::UistBroker;
use calls::call::Call;
use calls::verb::Verb;
use market::fault::{Fault, ok_unless};
use report::form::{Form, first_rows};
use std::io;
use std::io::Write;
use std::time::CpuClock;

// Is this a call that changes nothing and is answered by a list?
pub fn lists(c: &Call) -> bool
    ensures walk { c.now.verb ≡ Walk → result ≡ true }
    ensures send_list { c.now.verb ≡ SendList → result ≡ false }
{
    matches!(
        c.verb,
        Verb::Walk
            | Verb::Correct
            | Verb::GetPositions
            | Verb::GetQuotes
            | Verb::GetHoldings
            | Verb::GetPendingOrders
            | Verb::GetTradeCosts
    )
}

// Is this a call that is answered by a list, and needs no log? It is asked before `on_lists`, so that no
// other call enters a frame that holds lists. What is left there, in the last case, is one of the reads.
pub fn is_listed(c: &Call) -> bool {
    matches!(c.verb, Verb::SendList) || lists(c)
}

// What is answered by a list: its first rows, or what was drawn.
fn rows<T: Copy>(x: &Lent<Result<usize, Fault>, [T; 1024]>) -> Form<Result<&[T], Fault>> {
    first_rows(x.answer, &x.list)
}

impl<R: CpuClock, W: Write> Caller<'_, R, W> {
    #[inline(never)]
    fn send_list(&mut self, job: Job<'_>, b: &mut UistBroker) -> io::Result<u64> {
        let orders = job.orders();
        let from = clock::now(self.rt);
        let sent = arrays::send_on(*b, &orders);
        let events = ok_unless(sent.answer.fault, orders.count);
        let micros = self.answer(from, &first_rows(events, &sent.list))?;
        *b = sent.answer.state;
        Ok(micros)
    }

    #[inline(never)]
    fn walk(&mut self, job: Job<'_>, b: &UistBroker) -> io::Result<u64> {
        let lists = job.lists();
        let from = clock::now(self.rt);
        self.answer(from, &rows(&arrays::walk_on_ref(b, &lists)))
    }

    #[inline(never)]
    fn correct(&mut self, job: Job<'_>) -> io::Result<u64> {
        let vendors = job.vendors();
        let from = clock::now(self.rt);
        let corrected = correct::correct_on(&vendors, job.call.vendors.count, job.call.room);
        self.answer(from, &rows(&corrected))
    }

    // Each read of a list is a function of its own: one with the lists of all would pay for them at each.
    #[inline(never)]
    fn positions(&mut self, from: Option<u64>, b: &UistBroker, room: usize) -> io::Result<u64> {
        self.answer(from, &rows(&read::positions_on_ref(b, room)))
    }

    #[inline(never)]
    fn holdings(&mut self, from: Option<u64>, b: &UistBroker, room: usize) -> io::Result<u64> {
        self.answer(from, &rows(&read::holdings_on_ref(b, room)))
    }

    #[inline(never)]
    fn pending(&mut self, from: Option<u64>, b: &UistBroker, room: usize) -> io::Result<u64> {
        self.answer(from, &rows(&read::pending_on_ref(b, room)))
    }

    #[inline(never)]
    fn quotes(&mut self, from: Option<u64>, b: &UistBroker, room: usize) -> io::Result<u64> {
        self.answer(from, &rows(&read::quotes_on_ref(b, room)))
    }

    #[inline(never)]
    fn costs(&mut self, from: Option<u64>, b: &UistBroker, room: usize) -> io::Result<u64> {
        self.answer(from, &rows(&read::costs_on_ref(b, room)))
    }

    fn read(&mut self, job: Job<'_>, b: &UistBroker) -> io::Result<u64> {
        let from = clock::now(self.rt);
        let room = job.call.room;
        match job.call.verb {
            Verb::GetPositions => self.positions(from, b, room),
            Verb::GetHoldings => self.holdings(from, b, room),
            Verb::GetPendingOrders => self.pending(from, b, room),
            Verb::GetQuotes => self.quotes(from, b, room),
            // `get_trade_costs`: `on_lists` sends no other verb here.
            _ => self.costs(from, b, room),
        }
    }

    // A call that is answered by a list, and needs no log. Each takes much of the stack for its lists, in
    // a frame of its own.
    pub fn on_lists(&mut self, job: Job<'_>, b: &mut UistBroker) -> io::Result<u64> {
        match job.call.verb {
            Verb::SendList => self.send_list(job, b),
            Verb::Walk => self.walk(job, b),
            Verb::Correct => self.correct(job),
            _ => self.read(job, b),
        }
    }
}
