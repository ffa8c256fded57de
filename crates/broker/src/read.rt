// What a broker tells of itself. A call draws 16 where the counts do not hold together or the lot is
// outside its range, then 1 for a symbol above 255, or 2 for an amount that is not finite.
ghost use Rattle.std.specs.Prelude.{◌≡◌};
ghost use Rattle.market.specs.Faults.{ok_unless};
ghost use Rattle.portfolio.specs.State.{pending_at};
ghost use Rattle.broker.specs.Lender.{broker_fault};
ghost use Rattle.broker.specs.Read.{symbol_fault, amounts_fault, ReadsState, quote_of, holding_of, pending_of, value_here, value_sold, total_of, liquidation_of, cash_here, impact_of, costs_here};

use crate::state::UistBroker;
use costs::Impact;
use market::fault::{After, Fault, ok_unless};
use market::quote::Quote;
use portfolio::value;

#[derive(Clone, Copy)]
pub enum BrokerState {
    Ready,
    Failed,
}

// The pending quantity of a symbol among these. The array is lent by itself, since of a field behind a
// reference a proof does not know the length.
fn pending_at(pending: &[Option<f64>; 256], symbol: u32) -> Option<f64>
    ensures { result ≡ pending_at pending.now symbol }
{
    if symbol < 256 {
        pending[symbol as usize]
    } else {
        None
    }
}

impl UistBroker {
    // 16, then 1 of a symbol.
    #[tactic(auto, unfolding(market::specs::Faults::drawn, crate::specs::Read::symbol_fault))]
    fn symbol_fault(&self, symbol: u32) -> Option<Fault>
        ensures { result ≡ symbol_fault self.now symbol }
    {
        self.fault()
            .or((symbol > 255).then_some(Fault::UnknownSymbol))
    }

    // 16, then 2 of two amounts.
    #[tactic(auto, unfolding(market::specs::Faults::drawn, crate::specs::Read::amounts_fault))]
    fn amounts_fault(&self, x: f64, y: f64) -> Option<Fault>
        ensures { result ≡ amounts_fault self.now x y }
    {
        let finite = floats::finite(x) && floats::finite(y);
        self.fault().or((!finite).then_some(Fault::BadValue))
    }

    // Each read below has the Rust's name, with `_ref` where the broker is lent, and a clause of its own;
    // all but that of the state answer by `ok_unless`.

    // The latest quote of a symbol.
    pub fn get_quote_ref(&self, symbol: u32) -> Result<Option<Quote>, Fault>
        ensures { result ≡ ok_unless (symbol_fault self.now symbol) (quote_of self.now symbol) }
    {
        ok_unless(self.symbol_fault(symbol), self.portfolio.latest.row(symbol))
    }

    // How much of a symbol is held.
    pub fn get_position_qty_ref(&self, symbol: u32) -> Result<Option<f64>, Fault>
        ensures { result ≡ ok_unless (symbol_fault self.now symbol) (holding_of self.now symbol) }
    {
        let holding = self.portfolio.funds.holding_of(symbol);
        ok_unless(self.symbol_fault(symbol), value::unless_zero(holding))
    }

    // The pending quantity of a symbol.
    pub fn get_pending_order_ref(&self, symbol: u32) -> Result<Option<f64>, Fault>
        ensures { result ≡ ok_unless (symbol_fault self.now symbol) (pending_of self.now symbol) }
    {
        let pending = pending_at(&self.portfolio.funds.pending, symbol);
        ok_unless(self.symbol_fault(symbol), pending)
    }

    // The value of a position.
    pub fn get_position_value_ref(&self, symbol: u32) -> Result<Option<f64>, Fault>
        ensures { result ≡ ok_unless (symbol_fault self.now symbol) (value_here self.now symbol) }
    {
        ok_unless(self.symbol_fault(symbol), self.portfolio.value_of(symbol))
    }

    // What the broker's costs leave of a position's value in a sale.
    pub fn get_position_liquidation_value_ref(&self, symbol: u32) -> Result<Option<f64>, Fault>
        ensures { result ≡ ok_unless (symbol_fault self.now symbol) (value_sold self.now symbol) }
    {
        let value = self.portfolio.value_of(symbol);
        let sold = value::sold(self.portfolio.costs, value);
        ok_unless(self.symbol_fault(symbol), sold)
    }

    pub fn get_total_value_ref(&self) -> Result<f64, Fault>
        ensures { result ≡ ok_unless (broker_fault self.now) (total_of self.now) }
    {
        ok_unless(self.fault(), self.portfolio.get_total_value())
    }

    pub fn get_liquidation_value_ref(&self) -> Result<f64, Fault>
        ensures { result ≡ ok_unless (broker_fault self.now) (liquidation_of self.now) }
    {
        ok_unless(self.fault(), self.portfolio.get_liquidation_value())
    }

    pub fn get_cash_balance_ref(&self) -> Result<f64, Fault>
        ensures { result ≡ ok_unless (broker_fault self.now) (cash_here self.now) }
    {
        ok_unless(self.fault(), self.portfolio.funds.cash)
    }

    // Ready or Failed, which is told with 16 too: a `Result` would promise less.
    pub fn get_broker_state_ref(&self) -> After<BrokerState>
        ensures { ReadsState self.now.portfolio.funds.failed (broker_fault self.now) result }
    {
        After {
            state: if self.portfolio.funds.failed {
                BrokerState::Failed
            } else {
                BrokerState::Ready
            },
            fault: self.fault(),
        }
    }

    // How many trades are in the log.
    pub fn executed_trade_count_ref(&self) -> Result<u64, Fault>
        ensures { result ≡ ok_unless (broker_fault self.now) self.now.exchange.counts.logged }
    {
        ok_unless(self.fault(), self.exchange.counts.logged)
    }

    // What the broker's costs leave of a budget and a price.
    pub fn trade_impact_total_ref(
        &self,
        gross_budget: f64,
        gross_price: f64,
        is_buy: bool,
    ) -> Result<Impact, Fault>
        ensures { result ≡ ok_unless (amounts_fault self.now gross_budget gross_price) (impact_of self.now gross_budget gross_price is_buy) }
    {
        let fault = self.amounts_fault(gross_budget, gross_price);
        let net = costs::net_of_costs(self.portfolio.costs, gross_budget, gross_price, is_buy);
        ok_unless(fault, net)
    }

    // What the broker's costs charge on a trade.
    pub fn calculate_trade_costs_ref(&self, quantity: f64, value: f64) -> Result<f64, Fault>
        ensures { result ≡ ok_unless (amounts_fault self.now quantity value) (costs_here self.now quantity value) }
    {
        let fault = self.amounts_fault(quantity, value);
        ok_unless(fault, costs::charges(self.portfolio.costs, quantity, value))
    }
}

// The same reads, by value.
impl UistBroker {
    pub fn get_quote(self, symbol: u32) -> Result<Option<Quote>, Fault>
        ensures { result ≡ ok_unless (symbol_fault self symbol) (quote_of self symbol) }
    {
        self.get_quote_ref(symbol)
    }

    pub fn get_position_qty(self, symbol: u32) -> Result<Option<f64>, Fault>
        ensures { result ≡ ok_unless (symbol_fault self symbol) (holding_of self symbol) }
    {
        self.get_position_qty_ref(symbol)
    }

    pub fn get_pending_order(self, symbol: u32) -> Result<Option<f64>, Fault>
        ensures { result ≡ ok_unless (symbol_fault self symbol) (pending_of self symbol) }
    {
        self.get_pending_order_ref(symbol)
    }

    pub fn get_position_value(self, symbol: u32) -> Result<Option<f64>, Fault>
        ensures { result ≡ ok_unless (symbol_fault self symbol) (value_here self symbol) }
    {
        self.get_position_value_ref(symbol)
    }

    pub fn get_position_liquidation_value(self, symbol: u32) -> Result<Option<f64>, Fault>
        ensures { result ≡ ok_unless (symbol_fault self symbol) (value_sold self symbol) }
    {
        self.get_position_liquidation_value_ref(symbol)
    }

    pub fn get_total_value(self) -> Result<f64, Fault>
        ensures { result ≡ ok_unless (broker_fault self) (total_of self) }
    {
        self.get_total_value_ref()
    }

    pub fn get_liquidation_value(self) -> Result<f64, Fault>
        ensures { result ≡ ok_unless (broker_fault self) (liquidation_of self) }
    {
        self.get_liquidation_value_ref()
    }

    pub fn get_cash_balance(self) -> Result<f64, Fault>
        ensures { result ≡ ok_unless (broker_fault self) (cash_here self) }
    {
        self.get_cash_balance_ref()
    }

    pub fn get_broker_state(self) -> After<BrokerState>
        ensures { ReadsState self.portfolio.funds.failed (broker_fault self) result }
    {
        self.get_broker_state_ref()
    }

    pub fn executed_trade_count(self) -> Result<u64, Fault>
        ensures { result ≡ ok_unless (broker_fault self) self.exchange.counts.logged }
    {
        self.executed_trade_count_ref()
    }

    pub fn trade_impact_total(
        self,
        gross_budget: f64,
        gross_price: f64,
        is_buy: bool,
    ) -> Result<Impact, Fault>
        ensures { result ≡ ok_unless (amounts_fault self gross_budget gross_price) (impact_of self gross_budget gross_price is_buy) }
    {
        self.trade_impact_total_ref(gross_budget, gross_price, is_buy)
    }

    pub fn calculate_trade_costs(self, quantity: f64, value: f64) -> Result<f64, Fault>
        ensures { result ≡ ok_unless (amounts_fault self quantity value) (costs_here self quantity value) }
    {
        self.calculate_trade_costs_ref(quantity, value)
    }
}
