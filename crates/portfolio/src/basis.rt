// The cost basis of a symbol, trade by trade.
ghost use Rattle.std.specs.Prelude.{◌≡◌};
ghost use Rattle.rules.specs.Basis.{cleared, basis_step};
ghost use Rattle.portfolio.specs.Basis.{basis_in, no_basis};

use market::trade::{Trade, TradeType};

// A symbol's quantity and value so far.
#[derive(Clone, Copy, Default)]
pub struct Basis {
    pub quantity: f64,
    pub value: f64,
}

pub fn no_basis() -> Basis
    ensures { basis_in result ≡ no_basis }
{
    Basis::default()
}

// Quantity zero clears value.
pub fn cleared_at(quantity: f64, value: f64) -> Basis
    ensures { basis_in result ≡ cleared quantity value }
{
    Basis {
        quantity,
        value: if quantity == 0.0 { 0.0 } else { value },
    }
}

// A buy adds quantity and value, a sell subtracts both.
#[tactic(auto, unfolding(rules::specs::Basis::basis_step))]
pub fn basis_step(b: Basis, t: Trade, symbol: u32) -> Basis
    ensures { basis_in result ≡ basis_step symbol (basis_in b) t }
{
    if t.symbol != symbol {
        return b;
    }
    match t.typ {
        TradeType::Buy => cleared_at(b.quantity + t.quantity, b.value + t.value),
        TradeType::Sell => cleared_at(b.quantity - t.quantity, b.value - t.value),
    }
}
