// The reads of the broker's lists, for a caller whose list is an array of 1,024 rows: each lends the
// first places of one that it makes.
ghost use Rattle.std.specs.Prelude.{◌≡◌};
ghost use Rattle.portfolio.specs.State.{money_of};
ghost use Rattle.reads.specs.Rows.{position_rows, holding_rows, pending_rows, quote_rows, cost_rows};
ghost use Rattle.arrays.specs.Reads.{ReadOn, blank_positions, blank_holdings, blank_quotes, blank_costs};

use crate::{Lent, lend};
use broker::state::UistBroker;
use costs::BrokerCost;
use market::fault::Fault;
use market::quote::Quote;
use reads::collected::Holding;
use reads::uist;

// What each place of an array of holdings holds before a read.
const NO_HOLDING: Holding = Holding {
    symbol: 0,
    quantity: 0.0,
};

#[tactic(auto, unfolding(crate::specs::Reads::blank_quotes))]
pub(crate) fn no_quotes() -> [Quote; 1024]
    ensures { result ≡ blank_quotes }
{
    [Quote::blank(); 1024]
}

#[tactic(auto, unfolding(crate::specs::Reads::blank_positions))]
pub fn positions_on_ref(b: &UistBroker, room: usize) -> Lent<Result<usize, Fault>, [u32; 1024]>
    ensures { ReadOn b.now (position_rows (money_of b.now.portfolio)) room blank_positions result.answer result.list }
{
    let mut list = [0; 1024];
    let answer = lend(&mut list, room, |rows| uist::get_positions_ref(b, rows));
    Lent { answer, list }
}

#[tactic(auto, unfolding(crate::specs::Reads::blank_holdings))]
pub fn holdings_on_ref(b: &UistBroker, room: usize) -> Lent<Result<usize, Fault>, [Holding; 1024]>
    ensures { ReadOn b.now (holding_rows (money_of b.now.portfolio)) room blank_holdings result.answer result.list }
{
    let mut list = [NO_HOLDING; 1024];
    let answer = lend(&mut list, room, |rows| uist::get_holdings_ref(b, rows));
    Lent { answer, list }
}

#[tactic(auto, unfolding(crate::specs::Reads::blank_holdings))]
pub fn pending_on_ref(b: &UistBroker, room: usize) -> Lent<Result<usize, Fault>, [Holding; 1024]>
    ensures { ReadOn b.now (pending_rows (money_of b.now.portfolio)) room blank_holdings result.answer result.list }
{
    let mut list = [NO_HOLDING; 1024];
    let answer = lend(
        &mut list,
        room,
        |rows| uist::get_pending_orders_ref(b, rows),
    );
    Lent { answer, list }
}

pub fn quotes_on_ref(b: &UistBroker, room: usize) -> Lent<Result<usize, Fault>, [Quote; 1024]>
    ensures { ReadOn b.now (quote_rows (money_of b.now.portfolio)) room blank_quotes result.answer result.list }
{
    let mut list = no_quotes();
    let answer = lend(&mut list, room, |rows| uist::get_quotes_ref(b, rows));
    Lent { answer, list }
}

#[tactic(auto, unfolding(crate::specs::Reads::blank_costs))]
pub fn costs_on_ref(b: &UistBroker, room: usize) -> Lent<Result<usize, Fault>, [BrokerCost; 1024]>
    ensures { ReadOn b.now (cost_rows (money_of b.now.portfolio)) room blank_costs result.answer result.list }
{
    let mut list = [BrokerCost::Flat(0.0); 1024];
    let answer = lend(&mut list, room, |rows| uist::get_trade_costs_ref(b, rows));
    Lent { answer, list }
}

// The same reads, by value.
pub fn positions_on(b: UistBroker, room: usize) -> Lent<Result<usize, Fault>, [u32; 1024]>
    ensures { ReadOn b (position_rows (money_of b.portfolio)) room blank_positions result.answer result.list }
{
    positions_on_ref(&b, room)
}

pub fn holdings_on(b: UistBroker, room: usize) -> Lent<Result<usize, Fault>, [Holding; 1024]>
    ensures { ReadOn b (holding_rows (money_of b.portfolio)) room blank_holdings result.answer result.list }
{
    holdings_on_ref(&b, room)
}

pub fn pending_on(b: UistBroker, room: usize) -> Lent<Result<usize, Fault>, [Holding; 1024]>
    ensures { ReadOn b (pending_rows (money_of b.portfolio)) room blank_holdings result.answer result.list }
{
    pending_on_ref(&b, room)
}

pub fn quotes_on(b: UistBroker, room: usize) -> Lent<Result<usize, Fault>, [Quote; 1024]>
    ensures { ReadOn b (quote_rows (money_of b.portfolio)) room blank_quotes result.answer result.list }
{
    quotes_on_ref(&b, room)
}

pub fn costs_on(b: UistBroker, room: usize) -> Lent<Result<usize, Fault>, [BrokerCost; 1024]>
    ensures { ReadOn b (cost_rows (money_of b.portfolio)) room blank_costs result.answer result.list }
{
    costs_on_ref(&b, room)
}
