// A check: ticks, takes the fetched quotes, books the trades, and liquidates a shortfall.
ghost use Rattle.std.specs.Prelude.{◌≡◌};
ghost use Rattle.broker.specs.Send.{SendsFit};
ghost use Rattle.broker.specs.Check.{check_fault, Rescues, Refuses, checked_with, Checks};

use crate::state::UistBroker;
use exchange::tick::Traded;
use market::fault::Fault;
use market::table::ReadTable;
use market::trade::Trade;
use portfolio::booking;

// What a check comes to: the new state, the trades in the first `count` places, the log's row where
// the first of them goes, how many sells it queued, and what was drawn. The trades stand in fixed
// memory, with their count: `ArrayVec` is no `Copy`, as this answer is. A check that is refused answers
// the state too, so the refusal stands beside it, and this is no `Result`; it goes the same way through,
// with count 0.
#[derive(Clone, Copy)]
pub struct Checked {
    pub broker: UistBroker,
    pub trades: [Trade; 1024],
    pub count: usize,
    pub first: usize,
    pub queued: usize,
    pub fault: Option<Fault>,
}

// What a check in place comes to beside the state, which it changes: as in `Checked`.
#[derive(Clone, Copy)]
pub struct Settled {
    pub trades: [Trade; 1024],
    pub count: usize,
    pub first: usize,
    pub queued: usize,
    pub fault: Option<Fault>,
}

impl UistBroker {
    // A shortfall liquidates itself and the buffer; where that fails, the broker is Failed for good.
    // How many sells are queued.
    #[tactic(auto, unfolding(crate::specs::Check::rescued_by, crate::specs::Check::failed_of))]
    fn rebalance_cash(&mut self) -> usize
        requires { SendsFit self.old.exchange.counts }
        ensures { Rescues self.old self.new result }
    {
        let cash = self.portfolio.funds.cash;
        if !(cash < 0.0) {
            return 0;
        }
        match self.liquidate(-cash + UistBroker::BUFFER) {
            Some(queued) => queued,
            None => {
                self.portfolio.funds.failed = true;
                0
            }
        }
    }

    // 16, then what the rows draw.
    #[tactic(auto, unfolding(crate::specs::Check::check_fault))]
    fn check_fault(
        &self,
        tradable: &ReadTable,
        fetched: &ReadTable,
        log_length: usize,
    ) -> Option<Fault>
        ensures { result ≡ check_fault self.now log_length tradable.now.table.fault fetched.now.table.fault }
    {
        self.fault_for(log_length)
            .or(tradable.fault())
            .or(fetched.fault())
    }

    // What a check that is refused comes to: nothing is changed, and the trades are those of its tick.
    #[inline(never)]
    fn refused_check(&self, tradable: &ReadTable, fault: Option<Fault>) -> Settled
        ensures { Refuses self.now tradable.now.table fault result }
    {
        let mut exchange = self.exchange;
        let Traded { trades, .. } = exchange.tick_in_place(tradable);
        Settled {
            trades,
            count: 0,
            first: 0,
            queued: 0,
            fault,
        }
    }

    // A check in place on tables that were read, for a log of this length. The two are passed apart:
    // orders trade on the one, and the other becomes the latest quotes.
    #[tactic(auto, using(crate::proofs::Settling::tick_acts, crate::proofs::Settling::fits_ticked, crate::proofs::Settling::listed_trades), unfolding(crate::specs::Check::checked_by))]
    pub fn check_in_place(
        &mut self,
        tradable: &ReadTable,
        fetched: &ReadTable,
        log_length: usize,
    ) -> Settled
        ensures { Checks self.old tradable.now.table fetched.now.table log_length (checked_with self.new result) }
    {
        let fault = self.check_fault(tradable, fetched, log_length);
        if fault.is_some() {
            return self.refused_check(tradable, fault);
        }
        let Traded {
            trades,
            count,
            first,
            ..
        } = self.exchange.tick_in_place(tradable);
        let portfolio = &mut self.portfolio;
        booking::merge_in(&mut portfolio.latest, fetched.as_table());
        booking::settle_in(&mut portfolio.funds, &trades[..count.min(1024)]);
        let queued = self.rebalance_cash();
        Settled {
            trades,
            count,
            first,
            queued,
            fault,
        }
    }

    // The same, by value.
    pub fn check(mut self, tradable: ReadTable, fetched: ReadTable, log_length: usize) -> Checked
        ensures { Checks self tradable.table fetched.table log_length result }
    {
        let Settled {
            trades,
            count,
            first,
            queued,
            fault,
        } = self.check_in_place(&tradable, &fetched, log_length);
        Checked {
            broker: self,
            trades,
            count,
            first,
            queued,
            fault,
        }
    }
}
