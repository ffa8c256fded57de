// A portfolio by role: the latest quotes, the funds, the costs and the lot.
ghost use Rattle.std.specs.Prelude.{◌≡◌};
ghost use Rattle.rules.specs.Money.{unless_zero};
ghost use Rattle.portfolio.specs.State.{no_funds, held_at};

use costs::TradeCosts;
use market::table::Table;

// A symbol is held where its holding is not 0.0, as the rule says: with an `Option` there,
// `Some(0.0)` would be a second way to say that nothing is held. A pending sum of zero stays present.
// The two arrays stand side by side in fixed memory, since the engine allocates nothing: each is one
// of the Rust's maps by symbol, with a place for every symbol, and values read the holdings alone.
#[derive(Clone, Copy)]
pub struct Funds {
    pub holding: [f64; 256],
    pub pending: [Option<f64>; 256],
    pub cash: f64,
    // A flag of its own: it is the Rust's `BrokerState`, Ready or Failed, which has no value beside it.
    pub failed: bool,
}

#[derive(Clone, Copy)]
pub struct Portfolio {
    pub latest: Table,
    pub funds: Funds,
    pub costs: TradeCosts,
    pub lot: u32,
}

impl Funds {
    // Cash 0.0, nothing held, nothing pending.
    #[tactic(auto, unfolding(crate::specs::State::no_funds))]
    pub fn none() -> Funds
        ensures { result ≡ no_funds }
    {
        Funds {
            holding: [0.0; 256],
            pending: [None; 256],
            cash: 0.0,
            failed: false,
        }
    }

    // A symbol's holding, or 0.0.
    #[tactic(auto, using(crate::proofs::Symbols::held_past))]
    pub fn holding_of(&self, symbol: u32) -> f64
        ensures { unless_zero result ≡ held_at self.now.holding symbol }
    {
        if symbol < 256 {
            self.holding[symbol as usize]
        } else {
            0.0
        }
    }
}
