// An update: a check, the walk over weights, and the sends of its orders.
ghost use Rattle.std.specs.Prelude.{◌≡◌};
ghost use Rattle.broker.specs.Update.{update_fault, RefusesUpdate, updated_with, Updates};

use crate::check::Settled;
use crate::lender::list_fault;
use crate::send;
use crate::state::UistBroker;
use exchange::tick::Traded;
use market::fault::Fault;
use market::order::OrderEvent;
use market::table::ReadTable;
use market::trade::Trade;
use market::weight::Weights;
use portfolio::list::OrderList;

// How long the lent lists are: the log, the list for events, and the rows of weights.
#[derive(Clone, Copy)]
pub struct Lengths {
    pub log: usize,
    pub events: usize,
    pub weights: usize,
}

// What an update comes to: the new state; the trades in the first `count` places, and the log's row
// where the first of them goes; the events in the first `sent` places; the total value; and
// what was drawn. With 13 or 18 the check stands. Trades and events stand in fixed memory, with their
// counts: `ArrayVec` is no `Copy`, as this answer is. An update that is refused answers the state too,
// so the refusal stands beside it, and this is no `Result`; what it does not come to has count 0.
#[derive(Clone, Copy)]
pub struct Updated {
    pub broker: UistBroker,
    pub trades: [Trade; 1024],
    pub count: usize,
    pub first: usize,
    pub events: [OrderEvent; 256],
    pub sent: usize,
    pub total: f64,
    pub fault: Option<Fault>,
}

// What an update in place comes to beside the state, which it changes: as in `Updated`.
#[derive(Clone, Copy)]
pub struct Rebalanced {
    pub trades: [Trade; 1024],
    pub count: usize,
    pub first: usize,
    pub events: [OrderEvent; 256],
    pub sent: usize,
    pub total: f64,
    pub fault: Option<Fault>,
}

impl UistBroker {
    // 16, 15, then what the rows draw. The two tables are passed apart, as to a check.
    #[tactic(auto, using(crate::proofs::Updating::first_of), unfolding(crate::specs::Update::update_fault))]
    fn update_fault(
        &self,
        tradable: &ReadTable,
        fetched: &ReadTable,
        weights: &Weights,
        x: Lengths,
    ) -> Option<Fault>
        ensures { result ≡ update_fault self.now x tradable.now.table.fault fetched.now.table.fault weights.now.fault }
    {
        self.fault_for(x.log)
            .or(list_fault(x.weights, x.events))
            .or(tradable.fault())
            .or(fetched.fault())
            .or(weights.fault())
    }

    // What an update that is refused comes to: nothing is changed, and the trades are those of the
    // check's tick.
    #[inline(never)]
    fn refused_update(&self, tradable: &ReadTable, fault: Option<Fault>) -> Rebalanced
        ensures { RefusesUpdate self.now tradable.now.table fault result }
    {
        let mut exchange = self.exchange;
        let Traded { trades, .. } = exchange.tick_in_place(tradable);
        let events = send::no_events();
        Rebalanced {
            trades,
            count: 0,
            first: 0,
            events,
            sent: 0,
            total: 0.0,
            fault,
        }
    }

    // An update in place on tables and weights that were read. The two tables are passed apart, as to a
    // check. With 13 or 18 the check stands, and no order is sent.
    #[tactic(auto, using(crate::proofs::Updating::check_draws_none, crate::proofs::Updating::sends_fit))]
    pub fn update_in_place(
        &mut self,
        tradable: &ReadTable,
        fetched: &ReadTable,
        weights: &Weights,
        x: Lengths,
    ) -> Rebalanced
        ensures { Updates self.old tradable.now.table fetched.now.table weights.now x (update_fault self.old x tradable.now.table.fault fetched.now.table.fault weights.now.fault) (updated_with self.new result) }
    {
        let refused = self.update_fault(tradable, fetched, weights, x);
        if refused.is_some() {
            return self.refused_update(tradable, refused);
        }
        let Settled {
            trades,
            count,
            first,
            ..
        } = self.check_in_place(tradable, fetched, x.log);
        let portfolio = &self.portfolio;
        let (list, total, fault) = match portfolio.diff_against_target_weights(weights) {
            Ok(list) => (list, portfolio.get_total_value(), None),
            Err(fault) => (OrderList::none(), 0.0, Some(fault)),
        };
        let orders = list.orders();
        let events = self.send_all(orders);
        Rebalanced {
            trades,
            count,
            first,
            events,
            sent: orders.len(),
            total,
            fault,
        }
    }

    // The same, by value.
    pub fn update(
        mut self,
        tradable: ReadTable,
        fetched: ReadTable,
        weights: Weights,
        x: Lengths,
    ) -> Updated
        ensures { Updates self tradable.table fetched.table weights x (update_fault self x tradable.table.fault fetched.table.fault weights.fault) result }
    {
        let Rebalanced {
            trades,
            count,
            first,
            events,
            sent,
            total,
            fault,
        } = self.update_in_place(&tradable, &fetched, &weights, x);
        Updated {
            broker: self,
            trades,
            count,
            first,
            events,
            sent,
            total,
            fault,
        }
    }
}
