// The walk over weights alone, with what it draws.
ghost use Rattle.std.specs.Prelude.{◌≤◌, IfOk};
ghost use Rattle.broker.specs.Walk.{Walks};

use crate::state::UistBroker;
use market::fault::Fault;
use market::weight::Weights;
use portfolio::list::OrderList;

impl UistBroker {
    // The walk on weights that were read of `rows` rows, for a list of `room` orders.
    #[tactic(auto, unfolding(crate::specs::Walk::walk_fault))]
    pub fn diff_against_target_weights_ref(
        &self,
        weights: Weights,
        rows: usize,
        room: usize,
    ) -> Result<OrderList, Fault>
        ensures plan { Walks self.now weights rows room result }
        ensures few { IfOk result (λ list. list.count ≤ 256) }
    {
        if let Some(fault) = self.lender_fault(rows, room).or(weights.fault()) {
            return Err(fault);
        }
        self.portfolio.diff_against_target_weights(&weights)
    }

    // The same, by value.
    pub fn diff_against_target_weights(
        self,
        weights: Weights,
        rows: usize,
        room: usize,
    ) -> Result<OrderList, Fault>
        ensures plan { Walks self weights rows room result }
        ensures few { IfOk result (λ list. list.count ≤ 256) }
    {
        self.diff_against_target_weights_ref(weights, rows, room)
    }
}
