// What the lender draws: 16 for a broker whose counts do not hold together, a lot outside its range or a
// log of another length than at the start, 15 for a list that is too short.
ghost use Rattle.std.specs.Prelude.{◌≡◌, [], ◌∷◌};
ghost use Rattle.market.specs.Faults.{drawn};
ghost use Rattle.broker.specs.Lender.{broker_fault, broker_log_fault, short_test, lender_tests};

use crate::state::UistBroker;
use market::fault::Fault;
use sender::sound;

// 15 where a list of `room` entries is lent for `rows` rows.
#[tactic(auto, unfolding(market::specs::Faults::drawn))]
pub fn list_fault(rows: usize, room: usize) -> Option<Fault>
    ensures { result ≡ drawn (short_test rows room ∷ []) }
{
    (room < rows).then_some(Fault::ListTooShort)
}

impl UistBroker {
    // 16.
    pub fn fault(&self) -> Option<Fault>
        ensures { result ≡ broker_fault self.now }
    {
        sound::fault(self.exchange.counts, self.portfolio.lot)
    }

    // 16 of a call to which a log of this length is lent.
    #[tactic(auto, unfolding(market::specs::Faults::drawn))]
    pub fn fault_for(&self, log_length: usize) -> Option<Fault>
        ensures { result ≡ broker_log_fault self.now log_length }
    {
        if self.exchange.counts.log_differs(log_length) {
            return Some(Fault::Unsound);
        }
        self.fault()
    }

    // 16, then 15 where a list of `room` entries is lent for `rows` rows.
    #[tactic(auto, unfolding(market::specs::Faults::drawn, market::specs::Faults::first_drawn))]
    pub fn lender_fault(&self, rows: usize, room: usize) -> Option<Fault>
        ensures { result ≡ drawn (lender_tests self.now rows room) }
    {
        self.fault().or(list_fault(rows, room))
    }
}
