// Liquidation of an amount: positions are sold by symbol until the amount is met.
ghost use Rattle.broker.specs.Send.{SendsFit};
ghost use Rattle.broker.specs.Liquidate.{Liquidates, liquidate_of, liquidate_tests};
ghost use Rattle.broker.specs.Cash.{MovesCash};

use crate::state::{Told, UistBroker};
use account::BrokerCashEvent;
use portfolio::liquidate;

impl UistBroker {
    // Liquidates in a broker that does not draw 16; refusals of its orders are not reported. How many
    // sells it queued, where it succeeds.
    #[tactic(auto, using(crate::proofs::Selling::sales_few), unfolding(account::specs::Account::debit_of, crate::specs::Liquidate::liquidated_by))]
    pub(crate) fn liquidate(&mut self, amount: f64) -> Option<usize>
        requires { SendsFit self.old.exchange.counts }
        ensures { Liquidates self.old amount self.new result }
    {
        match liquidate::sales_for(&self.portfolio, amount) {
            Some(sales) => Some(self.queue_all(sales.orders())),
            None => {
                let moved = account::debited(self.portfolio.funds.cash, amount);
                self.portfolio.funds.cash = moved.cash;
                None
            }
        }
    }

    #[tactic(auto, unfolding(market::specs::Faults::drawn, crate::specs::Cash::amount_refusal, crate::specs::Liquidate::liquidate_of))]
    pub fn withdraw_cash_with_liquidation(mut self, cash: f64) -> Told<BrokerCashEvent>
        ensures { MovesCash (liquidate_of self cash) (liquidate_tests self cash) cash result }
    {
        let event = match self.amount_refusal(cash) {
            Some(refusal) => refusal,
            None if self.liquidate(cash).is_some() => BrokerCashEvent::WithdrawSuccess(cash),
            None => BrokerCashEvent::WithdrawFailure(cash),
        };
        Told {
            broker: self,
            event,
        }
    }
}
