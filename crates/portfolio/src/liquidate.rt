// The sales of a liquidation: positions are sold by symbol until the amount is met.
ghost use Rattle.std.specs.Prelude.{◌≡◌};
ghost use Rattle.rules.specs.Values.{symbols};
ghost use Rattle.rules.specs.Liquidation.{last_sale, sales_from, sales_for};
ghost use Rattle.portfolio.specs.State.{money_of};
ghost use Rattle.portfolio.specs.Lists.{listed_in};
ghost use Rattle.portfolio.specs.Liquidate.{part_in, sold_in};

use crate::list::OrderList;
use crate::state::Portfolio;
use market::order::Order;
use market::quote::Quote;

// Where the walk stops: the last order, if there is one, and the remaining amount.
#[derive(Clone, Copy)]
struct Part {
    order: Option<Order>,
    rest: f64,
}

// The sales of the walk, and the rest.
#[derive(Clone, Copy)]
struct Sold {
    list: OrderList,
    rest: f64,
}

// A part of a position that is worth more than the rest; nothing where it has no latest quote.
fn last_sale(row: Option<Quote>, symbol: u32, rest: f64) -> Part
    ensures { part_in result ≡ last_sale row symbol rest }
{
    match row {
        Some(q) => Part {
            order: Some(Order::market_sell(symbol, rest / floats::ceil(q.bid))),
            rest: 0.0,
        },
        None => Part { order: None, rest },
    }
}

// Sells positions by symbol until the amount is met: the walk of document 01, section 5.
fn sell_positions(p: &Portfolio, amount: f64) -> Sold
    ensures { sold_in result ≡ sales_from (money_of p.now) symbols amount }
{
    let mut list = OrderList::none();
    let mut rest = amount;
    let mut symbol: u32 = 0;
    // The walk is left by `break` with the last order and the remaining amount. A `for` cannot be left
    // with a value, so the symbols are counted by hand.
    let part = loop {
        if symbol > 255 {
            break Part { order: None, rest };
        }
        let holding = p.funds.holding_of(symbol);
        if holding != 0.0 {
            let value = p.value_of(symbol).unwrap_or(0.0);
            if !(value <= rest) {
                break last_sale(p.latest.row(symbol), symbol, rest);
            }
            list.push(Order::market_sell(symbol, holding));
            rest -= value;
        }
        symbol += 1;
    };
    if let Some(order) = part.order {
        list.push(order);
    }
    Sold {
        list,
        rest: part.rest,
    }
}

// The orders that an amount is met with; none where it exceeds the liquidation value, or where a
// rest is left.
#[tactic(auto, unfolding(rules::specs::Liquidation::sales_for))]
pub fn sales_for(p: &Portfolio, amount: f64) -> Option<OrderList>
    ensures { listed_in result ≡ sales_for (money_of p.now) amount }
{
    if amount > p.get_liquidation_value() {
        return None;
    }
    let sold = sell_positions(p, amount);
    if sold.rest == 0.0 {
        Some(sold.list)
    } else {
        None
    }
}
