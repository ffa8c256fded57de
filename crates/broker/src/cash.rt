// Cash in and out of a broker.
ghost use Rattle.std.specs.Prelude.{◌≡◌};
ghost use Rattle.broker.specs.Cash.{answered, amount_refusal, cash_refusal, MovesBy, deposit_of, withdraw_of, deposit_tests, withdraw_tests, MovesCash};

use crate::state::{Told, UistBroker};
use account::{BrokerCashEvent, Moved};

impl UistBroker {
    // The refusal of a call about an amount, 16 or 2.
    #[tactic(auto, unfolding(market::specs::Faults::drawn, crate::specs::Cash::amount_refusal))]
    pub(crate) fn amount_refusal(&self, amount: f64) -> Option<BrokerCashEvent>
        ensures { result ≡ amount_refusal self.now amount }
    {
        if self.fault().is_some() {
            return Some(BrokerCashEvent::Broken(amount));
        }
        if !floats::finite(amount) {
            return Some(BrokerCashEvent::NotFinite(amount));
        }
        None
    }

    // The refusal of a call that moves cash, 16, 2 or 4.
    #[tactic(auto, unfolding(crate::specs::Cash::amount_refusal, crate::specs::Cash::cash_refusal))]
    fn cash_refusal(&self, amount: f64) -> Option<BrokerCashEvent>
        ensures { result ≡ cash_refusal self.now amount }
    {
        match self.amount_refusal(amount) {
            None if self.portfolio.funds.failed => {
                Some(BrokerCashEvent::OperationFailure(amount))
            }
            refusal => refusal,
        }
    }

    // Moves cash, or is refused with 16, 2 or 4; `by` says what becomes of the cash. It works in place,
    // since a broker by value would be copied.
    fn move_cash<M: FnOnce(f64, f64) -> Moved>(&mut self, amount: f64, by: M) -> BrokerCashEvent
        requires { M.IsAlwaysCallable by }
        ensures { MovesBy self.old amount (M.post by) (answered self.new result) }
    {
        if let Some(refusal) = self.cash_refusal(amount) {
            return refusal;
        }
        let moved = by(self.portfolio.funds.cash, amount);
        self.portfolio.funds.cash = moved.cash;
        moved.event
    }

    #[tactic(auto, unfolding(market::specs::Faults::drawn, crate::specs::Cash::cash_refusal, crate::specs::Cash::cash_moved, crate::specs::Cash::deposit_of, account::specs::Account::credit_of))]
    pub fn deposit_cash(mut self, cash: f64) -> Told<BrokerCashEvent>
        ensures { MovesCash (deposit_of self cash) (deposit_tests self cash) cash result }
    {
        let event = self.move_cash(cash, account::credited);
        Told {
            broker: self,
            event,
        }
    }

    // As `deposit_cash`: each is one call of `move_cash`, which they share, and their contracts differ.
    #[tactic(auto, unfolding(market::specs::Faults::drawn, crate::specs::Cash::cash_refusal, crate::specs::Cash::cash_moved, crate::specs::Cash::withdraw_of, account::specs::Account::debit_of))]
    pub fn withdraw_cash(mut self, cash: f64) -> Told<BrokerCashEvent>
        ensures { MovesCash (withdraw_of self cash) (withdraw_tests self cash) cash result }
    {
        let event = self.move_cash(cash, account::debited);
        Told {
            broker: self,
            event,
        }
    }
}
