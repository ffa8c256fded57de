// The broker on lent lists: tables, weights and orders to be read, the log of trades, and lists for
// orders and events to be written.
ghost use Rattle.std.specs.Prelude.{◌≡◌, IsSome, MatchResult};
ghost use Rattle.market.specs.Faults.{ok_unless};
ghost use Rattle.rules.specs.Basis.{cost_basis};
ghost use Rattle.turnover.specs.Turnover.{turnover};
ghost use Rattle.broker.specs.Lent.{build_for};
ghost use Rattle.portfolio.specs.Basis.{basis_in};
ghost use Rattle.lent.specs.Logs.{logged_in, turnover_fault, basis_fault, basis_over};
ghost use Rattle.lent.specs.Answers.{AnswersCheck, AnswersSend, AnswersWalk, AnswersUpdate};

use broker::state::UistBroker;
use broker::update::Lengths;
use costs::TradeCosts;
use market::fault::{After, Fault};
use market::order::{Order, OrderEvent};
use market::quote::Quote;
use market::table::ReadTable;
use market::trade::Trade;
use market::weight::{Weight, Weights};
use portfolio::basis::{Basis, basis_step, no_basis};
use turnover::Sums;

// How many orders traded, how many sells were queued, and what was drawn: a check that is refused
// answers the broker too, so this is no `Result`. Both counts are 0 then. A `Result` of the two beside
// the broker would be a struct more, and a contract by cases where each part now has its clause; the
// ledger's answer has its parts side by side as well.
#[derive(Clone, Copy)]
pub struct CheckAnswer {
    pub broker: UistBroker,
    pub traded: usize,
    pub queued: usize,
    pub fault: Option<Fault>,
}

// The total value, how many events were written, and what was drawn. With 13 or 18 the check stands, so
// the broker is answered too, and this is no `Result`. The value and the count are 0 where anything is
// drawn; they stand side by side with it as a check's do, and as the ledger's answer has them.
#[derive(Clone, Copy)]
pub struct UpdateAnswer {
    pub broker: UistBroker,
    pub total: f64,
    pub sent: usize,
    pub fault: Option<Fault>,
}

// The cost basis of a symbol, from the log's trades: none at quantity zero.
#[tactic(auto, unfolding(market::specs::Faults::drawn, rules::specs::Basis::cost_basis))]
pub fn cost_basis(broker: UistBroker, log: &[Trade], symbol: u32) -> Result<Option<f64>, Fault>
    ensures { result ≡ ok_unless (basis_fault broker log.now symbol) (cost_basis (logged_in broker log.now) symbol) }
{
    let trades = logged(&broker, log)?;
    if symbol > 255 {
        return Err(Fault::UnknownSymbol);
    }
    let basis = fold_basis(trades, symbol);
    if basis.quantity == 0.0 {
        return Ok(None);
    }
    Ok(Some(basis.value / basis.quantity))
}

// The lesser of what was bought and what was sold, by the values of the log's trades.
#[tactic(auto, unfolding(turnover::specs::Turnover::turnover))]
pub fn turnover(broker: UistBroker, log: &[Trade]) -> Result<f64, Fault>
    ensures { result ≡ ok_unless (turnover_fault broker log.now) (turnover (logged_in broker log.now)) }
{
    let trades = logged(&broker, log)?;
    Ok(Sums::of(trades).lesser())
}

// A fresh broker for this log; the table's rows are the first latest quotes.
pub fn build(
    costs: TradeCosts,
    lot: u32,
    first: &[Quote],
    log: &[Trade],
) -> Result<UistBroker, Fault>
    ensures { result ≡ build_for costs lot first.now log.now }
{
    let t = ReadTable::of(first);
    UistBroker::build(costs, lot, t, log.len() as u64)
}

// The same in the place of another broker, which stays where this is refused.
pub fn build_in_place(
    broker: &mut UistBroker,
    costs: TradeCosts,
    lot: u32,
    first: &[Quote],
    log: &[Trade],
) -> Option<Fault>
    ensures built { build_for costs lot first.now log.now ≡ ok_unless result broker.new }
    ensures kept { IsSome result → broker.new ≡ broker.old }
{
    let table = ReadTable::of(first);
    broker.build_in_place(costs, lot, &table, log.len() as u64)
}

// Ticks on the tradable quotes, takes the fetched ones and books the trades, which become the log's
// newest rows; a shortfall of cash is liquidated.
pub fn check(
    mut broker: UistBroker,
    tradable: &[Quote],
    fetched: &[Quote],
    log: &mut [Trade],
) -> CheckAnswer
    ensures { AnswersCheck broker tradable.now fetched.now log.old result log.new }
{
    let t = ReadTable::of(tradable);
    let f = ReadTable::of(fetched);
    let checked = broker.check_in_place(&t, &f, log.len());
    slices::store(log, checked.first, &checked.trades[..checked.count]);
    CheckAnswer {
        broker,
        traded: checked.count,
        queued: checked.queued,
        fault: checked.fault,
    }
}

// Sends the orders one after the other; each has its own event, in its place. An event is
// written by its index, since a proof knows nothing of a list after a `zip` with its `iter_mut`.
pub fn send_orders(
    mut broker: UistBroker,
    orders: &[Order],
    events: &mut [OrderEvent],
) -> After<UistBroker>
    ensures { AnswersSend broker orders.now events.old result events.new }
{
    if let Some(fault) = broker.lender_fault(orders.len(), events.len()) {
        return After {
            state: broker,
            fault: Some(fault),
        };
    }
    for (i, order) in orders.iter().enumerate() {
        events[i] = broker.send_in_place(*order);
    }
    After {
        state: broker,
        fault: None,
    }
}

// The walk alone: its orders are written to the lent list.
pub fn diff_against_target_weights_ref(
    broker: &UistBroker,
    weights: &[Weight],
    orders: &mut [Order],
) -> Result<usize, Fault>
    ensures { AnswersWalk broker.now weights.now orders.old result orders.new }
{
    let w = Weights::of(weights);
    let listed = broker.diff_against_target_weights_ref(w, weights.len(), orders.len())?;
    let list = listed.orders();
    slices::store(orders, 0, list);
    Ok(list.len())
}

// The same, by value.
pub fn diff_against_target_weights(
    broker: UistBroker,
    weights: &[Weight],
    orders: &mut [Order],
) -> Result<usize, Fault>
    ensures { AnswersWalk broker weights.now orders.old result orders.new }
{
    diff_against_target_weights_ref(&broker, weights, orders)
}

// A check, then the orders that the weights come to; each has its own event, in its place.
pub fn update(
    mut broker: UistBroker,
    tradable: &[Quote],
    fetched: &[Quote],
    weights: &[Weight],
    events: &mut [OrderEvent],
    log: &mut [Trade],
) -> UpdateAnswer
    ensures { AnswersUpdate broker tradable.now fetched.now weights.now events.old log.old result events.new log.new }
{
    let t = ReadTable::of(tradable);
    let f = ReadTable::of(fetched);
    let w = Weights::of(weights);
    let lengths = Lengths {
        log: log.len(),
        events: events.len(),
        weights: weights.len(),
    };
    let updated = broker.update_in_place(&t, &f, &w, lengths);
    slices::store(log, updated.first, &updated.trades[..updated.count]);
    slices::store(events, 0, &updated.events[..updated.sent]);
    UpdateAnswer {
        broker,
        total: updated.total,
        sent: updated.sent,
        fault: updated.fault,
    }
}

// The log's trades, without the old rows past them.
#[tactic(auto, using(crate::proofs::Faults::logged_fits))]
fn logged<'a>(broker: &UistBroker, log: &'a [Trade]) -> Result<&'a [Trade], Fault>
    ensures { MatchResult result (λ trades. (turnover_fault broker.now log.now ≡ None) × (trades.now ≡ logged_in broker.now log.now)) (λ fault. turnover_fault broker.now log.now ≡ Some fault) }
{
    if let Some(fault) = broker.fault_for(log.len()) {
        return Err(fault);
    }
    Ok(&log[..broker.exchange.counts.logged as usize])
}

// A symbol's quantity and value, trade by trade.
fn fold_basis(log: &[Trade], symbol: u32) -> Basis
    ensures { basis_in result ≡ basis_over symbol log.now }
{
    log.iter()
        .fold(no_basis(), |b, t| basis_step(b, *t, symbol))
}
