// Sends: an order goes to the exchange, and pending moves.
ghost use Rattle.std.specs.Prelude.{◌≡◌, ◌≤◌, length};
ghost use Rattle.lists.specs.Lists.{over};
ghost use Rattle.broker.specs.Send.{no_events, SendsFit, event_for, sent_one, sent_all, events_of, sent_with, send_of, insert_of, delete_of};

use crate::state::{Told, UistBroker};
use exchange::state::Booked;
use market::fault::{After, Fault};
use market::order::{Order, OrderEvent};
use sender;
use sender::AtSymbol;

// What the places for events hold before they are written. No such place is read, since the count says
// how many are events; they are no `Option`s, as they are stored in a lent list of events as they stand.
#[tactic(auto, unfolding(crate::specs::Send::no_events))]
pub(crate) fn no_events() -> [OrderEvent; 256]
    ensures { result ≡ no_events }
{
    let blank = sender::event(Order::blank(), None);
    [blank; 256]
}

impl UistBroker {
    // Sends one order: where it is taken it waits on the exchange, and pending moves. It works in
    // place and is inlined, since a broker by value would be copied at each order, and at a call that
    // is not inlined once more. `SendsFit` is asked for: five functions of this crate ask it of each
    // other, and none outside is asked. A type with that invariant would have to prove it at each
    // change of the state.
    #[tactic(auto, using(crate::proofs::Sending::event_here, crate::proofs::Sending::fits_here, crate::proofs::Sending::joins_here), unfolding(crate::specs::Send::sent_one))]
    #[inline(always)]
    fn send_one(&mut self, o: Order) -> OrderEvent
        requires { SendsFit self.old.exchange.counts }
        ensures event { result ≡ event_for self.old o }
        ensures broker { self.new ≡ sent_one self.old o }
    {
        let at = (o.symbol % 256) as usize;
        let x = AtSymbol {
            quote: self.portfolio.latest.rows[at],
            holding: self.portfolio.funds.holding[at],
        };
        let failed = self.portfolio.funds.failed;
        let cash = self.portfolio.funds.cash;
        let counts = self.exchange.counts;
        let e = sender::send_event(o, failed, cash, x, counts);
        if e.fault.is_some() {
            return e;
        }
        if let Some(join) = counts.try_join() {
            self.exchange.book[join.at] = Booked::waiting(o);
            self.exchange.counts = join.counts;
            let pending = sender::pending_after(o, self.portfolio.funds.pending[at]);
            self.portfolio.funds.pending[at] = Some(pending);
        }
        e
    }

    // Sends orders one after the other. Their events, in the first places: a walk lists no more than 256.
    #[tactic(auto, using(crate::proofs::Sending::sent_next, crate::proofs::Sending::told_next, crate::proofs::Sending::sent_fits), unfolding(crate::specs::Send::events_of))]
    pub(crate) fn send_all(&mut self, orders: &[Order]) -> [OrderEvent; 256]
        requires fits { SendsFit self.old.exchange.counts }
        requires few { length orders.now ≤ 256 }
        ensures broker { self.new ≡ sent_all self.old orders.now }
        ensures events { result ≡ over (events_of self.old orders.now) no_events }
    {
        let mut events = no_events();
        for (i, o) in orders.iter().enumerate() {
            events[i] = self.send_one(*o);
        }
        events
    }

    // Sends the sales of a liquidation, whose events nobody asks for. How many are taken.
    #[tactic(auto, using(crate::proofs::Sending::sent_next, crate::proofs::Sending::sent_fits))]
    pub(crate) fn queue_all(&mut self, orders: &[Order]) -> usize
        requires { SendsFit self.old.exchange.counts }
        ensures broker { self.new ≡ sent_all self.old orders.now }
        ensures few { result ≤ length orders.now }
    {
        let mut taken = 0;
        for o in orders {
            if self.send_one(*o).fault.is_none() {
                taken += 1;
            }
        }
        taken
    }

    // A send in place: the event.
    #[tactic(auto, unfolding(market::specs::Faults::drawn, crate::specs::Send::send_of))]
    pub fn send_in_place(&mut self, order: Order) -> OrderEvent
        ensures { sent_with self.new result ≡ send_of self.old order }
    {
        let fault = self.fault();
        if fault.is_some() {
            return sender::event(order, fault);
        }
        self.send_one(order)
    }

    // The same, by value.
    pub fn send_order(mut self, order: Order) -> Told<OrderEvent>
        ensures { result ≡ send_of self order }
    {
        let event = self.send_in_place(order);
        Told {
            broker: self,
            event,
        }
    }

    // A direct insertion in place: pending is kept.
    #[tactic(auto, unfolding(market::specs::Faults::drawn, crate::specs::Send::insert_of))]
    pub fn insert_in_place(&mut self, order: Order) -> OrderEvent
        ensures { sent_with self.new result ≡ insert_of self.old order }
    {
        let fault = self.fault();
        if fault.is_some() {
            return sender::event(order, fault);
        }
        sender::event(order, self.exchange.insert_in_place(order))
    }

    // The same, by value.
    pub fn insert_order(mut self, order: Order) -> Told<OrderEvent>
        ensures { result ≡ insert_of self order }
    {
        let event = self.insert_in_place(order);
        Told {
            broker: self,
            event,
        }
    }

    // A deletion in place: what it draws.
    #[tactic(auto, unfolding(market::specs::Faults::drawn, crate::specs::Send::delete_of))]
    pub fn delete_in_place(&mut self, order_id: u64) -> Option<Fault>
        ensures { delete_of self.old order_id ≡ record { state = self.new; fault = result } }
    {
        let fault = self.fault();
        if fault.is_some() {
            return fault;
        }
        self.exchange.delete_in_place(order_id)
    }

    // The same, by value.
    pub fn delete_order(mut self, order_id: u64) -> After<UistBroker>
        ensures { result ≡ delete_of self order_id }
    {
        let fault = self.delete_in_place(order_id);
        After { state: self, fault }
    }
}
