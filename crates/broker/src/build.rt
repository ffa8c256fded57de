// The builder, and what a program keeps where no broker was made.
ghost use Rattle.std.specs.Prelude.{◌≡◌, IsSome};
ghost use Rattle.std.specs.List.{list_all};
ghost use Rattle.market.specs.Faults.{drawn, ok_unless};
ghost use Rattle.costs.specs.Kept.{costs_of};
ghost use Rattle.costs.specs.Costs.{is_finite};
ghost use Rattle.broker.specs.Build.{builder_tests, no_broker, build_of};

use crate::state::UistBroker;
use costs::{BrokerCost, TradeCosts};
use exchange::state::UistV1;
use floats::lot;
use market::fault::Fault;
use market::table::{ReadTable, Table};
use portfolio::state::{Funds, Portfolio};

fn is_finite(cost: BrokerCost) -> bool
    ensures { result ≡ is_finite cost }
{
    match cost {
        BrokerCost::PerShare(x) | BrokerCost::PctOfValue(x) | BrokerCost::Flat(x) => {
            floats::finite(x)
        }
    }
}

fn all_finite(costs: &[BrokerCost]) -> bool
    ensures { result ≡ list_all is_finite costs.now }
{
    costs.iter().all(|cost| is_finite(*cost))
}

// 14, 17 for a lot outside its range, then 2 for a cost.
#[tactic(auto, using(crate::proofs::Building::finite_drawn), unfolding(market::specs::Faults::drawn))]
fn builder_fault(costs: TradeCosts, lot: u32) -> Option<Fault>
    ensures { result ≡ drawn (builder_tests costs.count lot (costs_of costs)) }
{
    if costs.count > 16 {
        return Some(Fault::TooManyCosts);
    }
    if !lot::is_lot(lot) {
        return Some(Fault::LotOutOfRange);
    }
    if !all_finite(costs.costs()) {
        return Some(Fault::BadValue);
    }
    None
}

impl UistBroker {
    // What a program keeps where no broker was made. It is a broker and no `Option`: every call of it
    // draws 16 by itself, and no program has to test for a missing one.
    #[tactic(auto, unfolding(exchange::specs::State::fresh, crate::specs::Build::no_broker))]
    pub fn none() -> UistBroker
        ensures { result ≡ no_broker }
    {
        let mut exchange = UistV1::new(0);
        exchange.counts.ids = 1;
        UistBroker {
            exchange,
            portfolio: Portfolio {
                latest: Table::empty(),
                funds: Funds::none(),
                costs: TradeCosts::none(),
                lot: 0,
            },
        }
    }

    // A fresh broker for a log of `room` rows, in the place of this one, which stays where the builder is
    // refused; the table's rows are the first latest quotes.
    #[tactic(auto, unfolding(crate::specs::Build::build_of))]
    pub fn build_in_place(
        &mut self,
        costs: TradeCosts,
        lot: u32,
        first: &ReadTable,
        room: u64,
    ) -> Option<Fault>
        ensures built { build_of costs lot first.now.table room ≡ ok_unless result self.new }
        ensures kept { IsSome result → self.new ≡ self.old }
    {
        let fault = builder_fault(costs, lot).or(first.fault());
        if fault.is_none() {
            *self = UistBroker {
                exchange: UistV1::new(room),
                portfolio: Portfolio {
                    latest: first.table(),
                    funds: Funds::none(),
                    costs,
                    lot,
                },
            };
        }
        fault
    }

    // A fresh broker for a log of `room` rows; the table's rows are the first latest quotes.
    #[tactic(auto, unfolding(crate::specs::Build::build_of))]
    pub fn build(
        costs: TradeCosts,
        lot: u32,
        first: ReadTable,
        room: u64,
    ) -> Result<UistBroker, Fault>
        ensures { result ≡ build_of costs lot first.table room }
    {
        if let Some(fault) = builder_fault(costs, lot).or(first.fault()) {
            return Err(fault);
        }
        Ok(UistBroker {
            exchange: UistV1::new(room),
            portfolio: Portfolio {
                latest: first.table(),
                funds: Funds::none(),
                costs,
                lot,
            },
        })
    }
}
