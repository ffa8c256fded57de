// The calls that change nothing and are answered by no list.
use broker::state::UistBroker;
use calls::call::Call;
use calls::verb::Verb;
use report::answer::Reply;

// The reads of no symbol, and rounding; none of another call.
fn figure(b: &UistBroker, c: &Call) -> Option<Reply> {
    Some(match c.verb {
        Verb::GetTotalValue => Reply::Float(b.get_total_value_ref()),
        Verb::GetLiquidationValue => Reply::Float(b.get_liquidation_value_ref()),
        Verb::GetCashBalance => Reply::Float(b.get_cash_balance_ref()),
        Verb::GetBrokerState => Reply::State(b.get_broker_state_ref()),
        Verb::ExecutedTradeCount => Reply::Count(b.executed_trade_count_ref()),
        Verb::TradeImpactTotal => {
            Reply::Impact(b.trade_impact_total_ref(c.amount, c.second, c.is_buy))
        }
        Verb::CalculateTradeCosts => Reply::Float(b.calculate_trade_costs_ref(c.amount, c.second)),
        Verb::Floor => Reply::Float(Ok(floats::floor(c.amount))),
        Verb::Ceil => Reply::Float(Ok(floats::ceil(c.amount))),
        _ => return None,
    })
}

// A call that changes nothing and is answered by no list; none of another line.
pub fn ask(b: &UistBroker, c: &Call) -> Option<Reply> {
    Some(match c.verb {
        Verb::GetQuote => Reply::Quote(b.get_quote_ref(c.symbol)),
        Verb::GetPositionQty => Reply::Amount(b.get_position_qty_ref(c.symbol)),
        Verb::GetPendingOrder => Reply::Amount(b.get_pending_order_ref(c.symbol)),
        Verb::GetPositionValue => Reply::Amount(b.get_position_value_ref(c.symbol)),
        Verb::GetPositionLiquidationValue => {
            Reply::Amount(b.get_position_liquidation_value_ref(c.symbol))
        }
        _ => return figure(b, c),
    })
}
