// Booking: what trades make of cash, holdings and pending quantities, and fetched rows of the latest
// quotes.
ghost use Rattle.std.specs.Prelude.{◌≡◌};
ghost use mathlib.Core.List.{foldl};
ghost use Rattle.portfolio.specs.Booking.{settle_of, settle_one, merged_rows, merge_of};

use crate::state::Funds;
use crate::value::unless_zero;
use market::quote::Quote;
use market::table::Table;
use market::trade::{Trade, TradeType};
use std::array;

// Cash, and a symbol's holding and pending quantity.
#[derive(Clone, Copy)]
struct Settled {
    cash: f64,
    holding: f64,
    pending: Option<f64>,
}

// What a trade makes of them. A quantity that is absent reads as 0.0; zero is removed.
#[tactic(auto, unfolding(crate::specs::Booking::settle_of, account::specs::Account::force_of, account::specs::Account::credit_of))]
fn settle_one(t: Trade, x: Settled) -> Settled
    ensures { result ≡ settle_of t x }
{
    let holding = unless_zero(x.holding).unwrap_or(0.0);
    let pending = x.pending.unwrap_or(0.0);
    match t.typ {
        TradeType::Buy => {
            let moved = account::force_debited(x.cash, t.value);
            Settled {
                cash: moved.cash,
                holding: holding + t.quantity,
                pending: unless_zero(pending - t.quantity),
            }
        }
        TradeType::Sell => {
            let moved = account::credited(x.cash, t.value);
            Settled {
                cash: moved.cash,
                holding: holding - t.quantity,
                pending: unless_zero(pending + t.quantity),
            }
        }
    }
}

// Books the trades, in order, in the funds themselves.
#[tactic(auto, unfolding(crate::specs::Booking::settle_one))]
pub fn settle_in(funds: &mut Funds, trades: &[Trade])
    ensures { funds.new ≡ foldl settle_one funds.old trades.now }
{
    for t in trades {
        let at = (t.symbol % 256) as usize;
        let x = settle_one(
            *t,
            Settled {
                cash: funds.cash,
                holding: funds.holding[at],
                pending: funds.pending[at],
            },
        );
        funds.cash = x.cash;
        funds.holding[at] = x.holding;
        funds.pending[at] = x.pending;
    }
}

// The same, by value.
pub fn settle(mut funds: Funds, trades: &[Trade]) -> Funds
    ensures { result ≡ foldl settle_one funds trades.now }
{
    settle_in(&mut funds, trades);
    funds
}

// The rows where each fetched row is its symbol's latest quote.
fn merged(latest: &[Option<Quote>; 256], fetched: &Table) -> [Option<Quote>; 256]
    ensures { result ≡ merged_rows latest.now fetched.now }
{
    array::from_fn(|s| fetched.rows[s].or(latest[s]))
}

// Each fetched row is its symbol's latest quote, in the table of these.
#[tactic(auto, unfolding(crate::specs::Booking::merge_of))]
pub fn merge_in(latest: &mut Table, fetched: &Table)
    ensures { latest.new ≡ merge_of latest.old fetched.now }
{
    let rows = merged(&latest.rows, fetched);
    latest.rows = rows;
}

// The same, by value.
pub fn merge(mut latest: Table, fetched: Table) -> Table
    ensures { result ≡ merge_of latest fetched }
{
    merge_in(&mut latest, &fetched);
    latest
}
