// Trades, and the rule by which an order trades on a quote.
ghost use Rattle.std.specs.Prelude.{◌≡◌, cond};
ghost use Rattle.market.specs.Orders.{is_sell};
ghost use Rattle.market.specs.Trades.{blank_trade, rises, meets_rule, trade_of, trade_on};

use crate::order::{Order, OrderType};
use crate::quote::Quote;

#[derive(Clone, Copy)]
pub enum TradeType {
    Buy,
    Sell,
}

#[derive(Clone, Copy)]
pub struct Trade {
    pub symbol: u32,
    pub typ: TradeType,
    pub value: f64,
    pub quantity: f64,
    pub date: i64,
}

// Does a limit or stop order wait for the quote to rise to its price? If not, for it to fall.
fn rises(k: OrderType) -> bool
    ensures { result ≡ rises k }
{
    matches!(k, OrderType::LimitSell | OrderType::StopBuy)
}

// A sell trades at the bid, a buy at the ask.
fn price_at(o: Order, q: Quote) -> f64
    ensures { result ≡ cond (is_sell o.kind) q.bid q.ask }
{
    if o.is_sell() { q.bid } else { q.ask }
}

// Does this order trade on this quote? Without a price, what waits for a rise trades, the others
// never.
fn meets_rule(o: Order, q: Quote) -> bool
    ensures { result ≡ meets_rule o q }
{
    if o.is_market() {
        return true;
    }
    let at = price_at(o, q);
    let waits_for_rise = rises(o.kind);
    match o.price {
        None => waits_for_rise,
        Some(price) if waits_for_rise => price <= at,
        Some(price) => price >= at,
    }
}

impl Trade {
    // A row that nothing traded.
    pub fn blank() -> Trade
        ensures { result ≡ blank_trade }
    {
        Trade {
            symbol: 0,
            typ: TradeType::Buy,
            value: 0.0,
            quantity: 0.0,
            date: 0,
        }
    }

    // The trade of an order at a quote: a sell at the bid, a buy at the ask.
    pub fn of(o: Order, q: Quote) -> Trade
        ensures { result ≡ trade_of o q }
    {
        Trade {
            symbol: o.symbol,
            typ: if o.is_sell() {
                TradeType::Sell
            } else {
                TradeType::Buy
            },
            value: price_at(o, q) * o.shares,
            quantity: o.shares,
            date: q.date,
        }
    }
}

// The trade that an order makes on the row for its symbol, where there is one and it meets the
// order's rule.
#[tactic(auto, unfolding(crate::specs::Trades::trade_on))]
pub fn execute(o: Order, row: Option<Quote>) -> Option<Trade>
    ensures { result ≡ trade_on row o }
{
    let q = row?;
    if meets_rule(o, q) {
        Some(Trade::of(o, q))
    } else {
        None
    }
}
