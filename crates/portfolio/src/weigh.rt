// The walk over weights: the orders by which the holdings meet a model portfolio, in multiples of the
// lot.
ghost use Rattle.std.specs.Prelude.{◌≡◌, ◌≤◌, length, IfOk};
ghost use Rattle.costs.specs.Kept.{costs_of};
ghost use Rattle.orders.specs.Orders.{of_side, sells_first};
ghost use Rattle.rules.specs.Weights.{shares_for, order_for, wanted, plan_of};
ghost use Rattle.portfolio.specs.State.{money_of};
ghost use Rattle.portfolio.specs.Lists.{listed, listed_in, onto_of};
ghost use Rattle.lists.specs.Lists.{holds};
ghost use Rattle.market.specs.Weights.{weighed};
ghost use Rattle.portfolio.specs.Weigh.{plan_in};

use crate::list::OrderList;
use crate::state::Portfolio;
use floats::lot;
use market::fault::Fault;
use market::order::Order;
use market::quote::Quote;
use market::weight::{Weight, Weights};

// The order that shares come to: a sale where they are below zero or a NaN.
#[tactic(auto, unfolding(rules::specs::Weights::order_for), using(crate::proofs::Weighing::sized))]
fn order_for(symbol: u32, shares: f64) -> Option<Order>
    ensures { holds result ≡ order_for symbol shares }
{
    if shares == 0.0 {
        return None;
    }
    if shares > 0.0 {
        return Some(Order::market_buy(symbol, shares));
    }
    Some(Order::market_sell(symbol, shares.abs()))
}

// The orders of one side of a list behind those that `onto` has. A list has 256 places: a count above
// them, which the type allows, would stay, and so count orders that are not listed.
fn side_onto(list: &OrderList, sells: bool, onto: OrderList) -> OrderList
    requires { onto.count ≤ 256 }
    ensures { result ≡ onto_of onto (of_side sells (listed list.now)) }
{
    let mut out = onto;
    for o in list.orders() {
        if o.is_sell() == sells {
            out.push(*o);
        }
    }
    out
}

// A list's sales, then its buys.
fn sells_first(list: &OrderList) -> OrderList
    ensures sorted { listed result ≡ sells_first (listed list.now) }
    ensures few { result.count ≤ 256 }
{
    let sales = side_onto(list, true, OrderList::none());
    side_onto(list, false, sales)
}

impl Portfolio {
    // The shares that a difference comes to at a quote, net of costs. They are missing, as the rule
    // says, where the lot does not round the quotient: 18 is drawn of that in one place, after 13.
    #[tactic(auto, unfolding(rules::specs::Weights::shares_for))]
    fn shares_for(&self, difference: f64, q: Quote) -> Option<f64>
        ensures { result ≡ shares_for self.now.lot (costs_of self.now.costs) difference q }
    {
        if difference < 0.0 {
            let net = costs::net_of_costs(self.costs, -difference, q.bid, false);
            let shares = lot::floor_to_lot(net.budget / net.price, self.lot)?;
            Some(-shares)
        } else {
            let net = costs::net_of_costs(self.costs, difference, q.ask, true);
            lot::floor_to_lot(net.budget / net.price, self.lot)
        }
    }

    // The orders of the rows of weights, up to the first zero difference; an unquoted symbol is passed
    // over. They are missing where the shares of a row are. `Weights` keeps no more than 256 rows, so
    // that the list has a place for each row's order.
    fn wanted_orders(&self, total: f64, rows: &[Weight]) -> Option<OrderList>
        requires { length rows.now ≤ 256 }
        ensures { listed_in result ≡ wanted (money_of self.now) total rows.now }
    {
        let mut list = OrderList::none();
        for w in rows {
            let value = self.value_of(w.symbol).unwrap_or(0.0);
            let difference = total * w.weight - value;
            if difference == 0.0 {
                break;
            }
            let Some(q) = self.latest.row(w.symbol) else {
                continue;
            };
            let shares = self.shares_for(difference, q)?;
            if let Some(order) = order_for(w.symbol, shares) {
                list.push(order);
            }
        }
        Some(list)
    }

    // The walk: the orders of the weights, or 13 or 18. Where a number is drawn no order is listed,
    // also none of the rows before.
    #[tactic(auto, unfolding(rules::specs::Weights::plan_of, market::specs::Faults::drawn))]
    pub fn diff_against_target_weights(&self, weights: &Weights) -> Result<OrderList, Fault>
        ensures plan { plan_in result ≡ plan_of (money_of self.now) (weighed weights.now) }
        ensures few { IfOk result (λ list. list.count ≤ 256) }
    {
        let total = self.get_liquidation_value();
        if total == 0.0 {
            return Err(Fault::NothingToWeigh);
        }
        let list = self
            .wanted_orders(total, weights.rows())
            .ok_or(Fault::BeyondLot)?;
        Ok(sells_first(&list))
    }
}
