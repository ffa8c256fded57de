// Turnover by the fund convention: what was bought and what was sold are summed apart, and the lesser
// of the two sums counts.
#![tactic(auto)]

ghost use Rattle.std.specs.Prelude.{◌≡◌};
ghost use Rattle.turnover.specs.Turnover.{no_sums, add_sums, turnover_sums, lesser};

use market::trade::{Trade, TradeType};

// The values bought and the values sold so far.
#[derive(Clone, Copy, Default)]
pub struct Sums {
    pub bought: f64,
    pub sold: f64,
}

impl Sums {
    // No sums. (`no_basis` of portfolio is another thing: a quantity, and the value that it cost.)
    pub fn none() -> Sums
        ensures { result ≡ no_sums }
    {
        Sums::default()
    }

    // A buy's value joins the bought sum, a sale's the sold one.
    pub fn with(mut self, t: Trade) -> Sums
        ensures { result ≡ add_sums self t }
    {
        match t.typ {
            TradeType::Buy => self.bought += t.value,
            TradeType::Sell => self.sold += t.value,
        }
        self
    }

    // The sums of a log, in its order.
    pub fn of(log: &[Trade]) -> Sums
        ensures { result ≡ turnover_sums log.now }
    {
        let mut sums = Sums::none();
        for t in log {
            sums = sums.with(*t);
        }
        sums
    }

    // The bought sum where it is below the sold one, else the sold one. A sold sum that is NaN is
    // answered, which `f64::min` would not do.
    pub fn lesser(self) -> f64
        ensures { result ≡ lesser self }
    {
        if self.bought < self.sold {
            self.bought
        } else {
            self.sold
        }
    }
}
