// Values of positions, and of the whole portfolio.
ghost use Rattle.std.specs.Prelude.{◌≡◌};
ghost use Rattle.rules.specs.Money.{unless_zero};
ghost use Rattle.rules.specs.Values.{value_at, value_of, total_value, liquidation_value};
ghost use Rattle.costs.specs.Kept.{costs_of};
ghost use Rattle.portfolio.specs.State.{money_of, sold_for, CashWith};

use crate::state::Portfolio;
use costs::TradeCosts;
use market::quote::Quote;

// A quantity that is removed where it is zero.
pub fn unless_zero(x: f64) -> Option<f64>
    ensures { result ≡ unless_zero x }
{
    if x == 0.0 { None } else { Some(x) }
}

// A position's value at the latest row of its symbol.
pub fn value_at(row: Option<Quote>, holding: f64) -> Option<f64>
    ensures { result ≡ value_at row (unless_zero holding) }
{
    let q = row?;
    Some(q.bid * unless_zero(holding)?)
}

// What a sale of the amount leaves after costs.
pub fn sold(costs: TradeCosts, amount: Option<f64>) -> Option<f64>
    ensures { result ≡ sold_for (costs_of costs) amount }
{
    let x = amount?;
    Some(costs::net_of_costs(costs, x, x, false).budget)
}

impl Portfolio {
    // The value of a symbol's position.
    pub fn value_of(&self, symbol: u32) -> Option<f64>
        ensures { result ≡ value_of (money_of self.now) symbol }
    {
        value_at(self.latest.row(symbol), self.funds.holding_of(symbol))
    }

    // Cash, and what is counted of each position's value, added by ascending symbol.
    fn cash_with<F: Fn(f64) -> f64>(&self, counted: F) -> f64
        requires { F.IsAlwaysCallable counted }
        ensures { CashWith (money_of self.now) (F.post counted) result }
    {
        let mut sum = self.funds.cash;
        for symbol in 0..256 {
            if let Some(x) = self.value_of(symbol) {
                sum += counted(x);
            }
        }
        sum
    }

    pub fn get_total_value(&self) -> f64
        ensures { result ≡ total_value (money_of self.now) }
    {
        self.cash_with(|x| x)
    }

    pub fn get_liquidation_value(&self) -> f64
        ensures { result ≡ liquidation_value (money_of self.now) }
    {
        self.cash_with(|x| costs::net_of_costs(self.costs, x, x, false).budget)
    }
}
