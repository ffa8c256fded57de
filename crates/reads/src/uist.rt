// The broker's lists, read to lent lists: how many rows were written. A call draws 16 where the counts
// do not hold together, then 15 where the lent list is shorter than the rows; it then writes none.
ghost use Rattle.std.specs.Prelude.{◌≡◌, ◌≤◌, length, MatchResult};
ghost use Rattle.lists.specs.Lists.{gather, holds};
ghost use Rattle.portfolio.specs.State.{money_of};
ghost use Rattle.reads.specs.Rows.{position_rows, holding_rows, pending_rows, quote_rows, cost_rows};
ghost use Rattle.reads.specs.Answers.{list_fault, AnswersList};

use crate::collected;
use crate::collected::Holding;
use broker::state::UistBroker;
use costs::BrokerCost;
use market::fault::Fault;
use market::quote::Quote;
use portfolio::value::unless_zero;
use std::array;

// The symbols that are held.
pub fn get_positions_ref(broker: &UistBroker, positions: &mut [u32]) -> Result<usize, Fault>
    ensures { AnswersList broker.now (position_rows (money_of broker.now.portfolio)) positions.old result positions.new }
{
    let holding = &broker.portfolio.funds.holding;
    let rows: [Option<u32>; 256] = array::from_fn(|s| unless_zero(holding[s]).map(|_| s as u32));
    answer(broker, &rows, positions)
}

// How much is held of each symbol that is. This and the pending quantities below have a reader each:
// another field, and another rule for zero; what they share is `Holding::of` and `answer`.
pub fn get_holdings_ref(broker: &UistBroker, holdings: &mut [Holding]) -> Result<usize, Fault>
    ensures { AnswersList broker.now (holding_rows (money_of broker.now.portfolio)) holdings.old result holdings.new }
{
    let holding = &broker.portfolio.funds.holding;
    let rows: [Option<Holding>; 256] = array::from_fn(|s| {
        let quantity = unless_zero(holding[s])?;
        Some(Holding::of(s, quantity))
    });
    answer(broker, &rows, holdings)
}

// The pending quantities, a sum of zero too.
pub fn get_pending_orders_ref(broker: &UistBroker, pending: &mut [Holding]) -> Result<usize, Fault>
    ensures { AnswersList broker.now (pending_rows (money_of broker.now.portfolio)) pending.old result pending.new }
{
    let quantities = &broker.portfolio.funds.pending;
    let rows: [Option<Holding>; 256] = array::from_fn(|s| {
        let quantity = quantities[s]?;
        Some(Holding::of(s, quantity))
    });
    answer(broker, &rows, pending)
}

// The latest quotes; where the Rust answers `None`, no row.
pub fn get_quotes_ref(broker: &UistBroker, quotes: &mut [Quote]) -> Result<usize, Fault>
    ensures { AnswersList broker.now (quote_rows (money_of broker.now.portfolio)) quotes.old result quotes.new }
{
    answer(broker, whole(&broker.portfolio.latest.rows), quotes)
}

// The broker's trade costs, in order.
#[tactic(auto, unfolding(crate::specs::Rows::cost_rows, crate::specs::Answers::read_of))]
pub fn get_trade_costs_ref(broker: &UistBroker, costs: &mut [BrokerCost]) -> Result<usize, Fault>
    ensures { AnswersList broker.now (cost_rows (money_of broker.now.portfolio)) costs.old result costs.new }
{
    let rows = broker.portfolio.costs.costs();
    fits(broker, rows.len(), costs.len())?;
    costs[..rows.len()].copy_from_slice(rows);
    Ok(rows.len())
}

// The same reads, by value.
pub fn get_positions(broker: UistBroker, positions: &mut [u32]) -> Result<usize, Fault>
    ensures { AnswersList broker (position_rows (money_of broker.portfolio)) positions.old result positions.new }
{
    get_positions_ref(&broker, positions)
}

pub fn get_holdings(broker: UistBroker, holdings: &mut [Holding]) -> Result<usize, Fault>
    ensures { AnswersList broker (holding_rows (money_of broker.portfolio)) holdings.old result holdings.new }
{
    get_holdings_ref(&broker, holdings)
}

pub fn get_pending_orders(broker: UistBroker, pending: &mut [Holding]) -> Result<usize, Fault>
    ensures { AnswersList broker (pending_rows (money_of broker.portfolio)) pending.old result pending.new }
{
    get_pending_orders_ref(&broker, pending)
}

pub fn get_quotes(broker: UistBroker, quotes: &mut [Quote]) -> Result<usize, Fault>
    ensures { AnswersList broker (quote_rows (money_of broker.portfolio)) quotes.old result quotes.new }
{
    get_quotes_ref(&broker, quotes)
}

pub fn get_trade_costs(broker: UistBroker, costs: &mut [BrokerCost]) -> Result<usize, Fault>
    ensures { AnswersList broker (cost_rows (money_of broker.portfolio)) costs.old result costs.new }
{
    get_trade_costs_ref(&broker, costs)
}

// An array of 256 rows as a list. Of a field behind a reference a proof does not know the length, which
// this says.
fn whole<T>(rows: &[Option<T>; 256]) -> &[Option<T>]
    ensures same { result.now ≡ rows.now }
    ensures long { length rows.now ≡ 256 }
{
    rows
}

// The answer for the rows that there are, which are written to the list.
#[tactic(auto, unfolding(crate::specs::Answers::read_of))]
fn answer<T: Copy>(broker: &UistBroker, rows: &[Option<T>], list: &mut [T]) -> Result<usize, Fault>
    ensures { AnswersList broker.now (gather holds rows.now) list.old result list.new }
{
    let count = collected::count(rows);
    fits(broker, count, list.len())?;
    collected::store(rows, list);
    Ok(count)
}

// Whether `count` rows can be read to a lent list of `room` entries: it then has a place for each.
#[tactic(auto, using(crate::proofs::Lending::fits_lent), unfolding(crate::specs::Answers::list_fault))]
fn fits(broker: &UistBroker, count: usize, room: usize) -> Result<(), Fault>
    ensures { MatchResult result (λ _. (list_fault broker.now count room ≡ None) × (count ≤ room)) (λ fault. list_fault broker.now count room ≡ Some fault) }
{
    if let Some(fault) = broker.lender_fault(count, room) {
        return Err(fault);
    }
    Ok(())
}
