// The sender's numbers, 1, 2 and 4 to 11, by what an order's tests read, and what a taken order adds to
// its symbol's pending quantity.
#![tactic(auto)]

ghost use Rattle.std.specs.Prelude.{◌≡◌, Some};
ghost use Rattle.market.specs.Orders.{event_of};
ghost use Rattle.rules.specs.Money.{unless_zero};
ghost use Rattle.rules.specs.Sends.{exceeds_cash, exceeds_holding};
ghost use Rattle.sender.specs.Sender.{event_at, pending_after};

pub mod sound;

use exchange::state::Counts;
use market::fault::Fault;
use market::order::{Order, OrderEvent};
use market::quote::Quote;

// What an order's tests read at its symbol: the latest row, and the holding.
#[derive(Clone, Copy)]
pub struct AtSymbol {
    pub quote: Option<Quote>,
    pub holding: f64,
}

// An order with what it drew.
pub fn event(order: Order, fault: Option<Fault>) -> OrderEvent
    ensures { result ≡ event_of order fault }
{
    OrderEvent { order, fault }
}

// A buy that cash does not cover.
fn exceeds_cash(o: Order, cash: f64, q: Quote) -> bool
    ensures { result ≡ exceeds_cash cash o (Some q) }
{
    if o.is_sell() {
        return false;
    }
    !(cash > o.shares * q.ask)
}

// A sale of more than is held of a held symbol.
fn exceeds_holding(o: Order, holding: f64) -> bool
    ensures { result ≡ exceeds_holding o (unless_zero holding) }
{
    if !o.is_sell() {
        return false;
    }
    if holding == 0.0 {
        return false;
    }
    !(holding >= o.shares)
}

// The event of an order in a broker that does not draw 16: 1, 2, 4 to 11, or none. What its tests read
// is passed alone: the funds or the broker that they come from would be copied. (01
// names the form: the quote is taken apart by `let .. else`, the else returning the event.)
#[tactic(auto, unfolding(crate::specs::Sender::event_at, market::specs::Faults::drawn))]
pub fn send_event(o: Order, failed: bool, cash: f64, x: AtSymbol, counts: Counts) -> OrderEvent
    ensures { result ≡ event_at o failed cash x counts }
{
    if let Some(fault) = o.fault() {
        return event(o, Some(fault));
    }
    // One test among the others: Failed has no value beside it.
    if failed {
        return event(o, Some(Fault::BrokerFailed));
    }
    let Some(q) = x.quote else {
        return event(o, Some(Fault::Unquoted));
    };
    if !o.is_market() {
        return event(o, Some(Fault::NotMarket));
    }
    if exceeds_cash(o, cash, q) {
        return event(o, Some(Fault::ExceedsCash));
    }
    if exceeds_holding(o, x.holding) {
        return event(o, Some(Fault::ExceedsHolding));
    }
    if o.shares == 0.0 {
        return event(o, Some(Fault::ZeroShares));
    }
    event(o, counts.room_fault())
}

// A symbol's pending quantity with an order's effect.
#[tactic(auto, unfolding(crate::specs::Sender::pending_after))]
pub fn pending_after(o: Order, pending: Option<f64>) -> f64
    ensures { result ≡ pending_after o pending }
{
    let effect = if o.is_sell() { -o.shares } else { o.shares };
    match pending {
        Some(sum) => sum + effect,
        None => effect,
    }
}
