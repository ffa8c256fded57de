// The verbs of a scenario's lines, and their names.
ghost use Rattle.std.specs.Prelude.{◌≡◌, ◌++◌};
ghost use Rattle.calls.specs.Verbs.{named_or, verb_in, symbol_readers, room_readers, readers, others, verbs, verb_of};

use words::word;

// What a line asks for. A blank line and a malformed one ask for nothing and are cases all the same, since a
// run tells the one from the other and from each call.
#[derive(Clone, Copy, PartialEq)]
pub enum Verb {
    Blank,
    Malformed,
    New,
    Lend,
    Deposit,
    Withdraw,
    Liquidate,
    Send,
    Insert,
    SendList,
    Delete,
    Check,
    Walk,
    Update,
    GetQuote,
    GetPositionQty,
    GetPendingOrder,
    GetPositionValue,
    GetPositionLiquidationValue,
    CostBasis,
    GetPositions,
    GetQuotes,
    GetHoldings,
    GetPendingOrders,
    GetTradeCosts,
    GetTotalValue,
    GetLiquidationValue,
    GetCashBalance,
    Turnover,
    GetBrokerState,
    ExecutedTradeCount,
    TradeImpactTotal,
    CalculateTradeCosts,
    Floor,
    Ceil,
    Correct,
    State,
    Quiet,
    Full,
    Clock,
}

// The verb of this name, or `rest` where the word is another. The names are tested one by one, the last
// row first: a match on them opens a case for each of their bytes, and its proof was not found.
fn named_or(w: &[u8], name: &[u8], verb: Verb, rest: Verb) -> Verb
    ensures { result ≡ named_or w.now name.now verb rest }
{
    if word::is_name(w, name) {
        return verb;
    }
    rest
}

// The verbs that need no broker.
fn other(w: &[u8]) -> Verb
    ensures { result ≡ verb_in others w.now }
{
    let v = named_or(w, b"clock", Verb::Clock, Verb::Malformed);
    let v = named_or(w, b"full", Verb::Full, v);
    let v = named_or(w, b"quiet", Verb::Quiet, v);
    let v = named_or(w, b"state", Verb::State, v);
    let v = named_or(w, b"correct", Verb::Correct, v);
    let v = named_or(w, b"ceil", Verb::Ceil, v);
    named_or(w, b"floor", Verb::Floor, v)
}

// The verbs that read and that no table before has, and the verbs that need no broker.
fn reader(w: &[u8]) -> Verb
    ensures { result ≡ verb_in (readers ++ others) w.now }
{
    let v = other(w);
    let v = named_or(w, b"calculate_trade_costs", Verb::CalculateTradeCosts, v);
    let v = named_or(w, b"trade_impact_total", Verb::TradeImpactTotal, v);
    let v = named_or(w, b"executed_trade_count", Verb::ExecutedTradeCount, v);
    let v = named_or(w, b"get_broker_state", Verb::GetBrokerState, v);
    let v = named_or(w, b"turnover", Verb::Turnover, v);
    let v = named_or(w, b"get_cash_balance", Verb::GetCashBalance, v);
    let v = named_or(w, b"get_liquidation_value", Verb::GetLiquidationValue, v);
    named_or(w, b"get_total_value", Verb::GetTotalValue, v)
}

// The verbs that read into a lent list, and those of the tables behind.
fn room_reader(w: &[u8]) -> Verb
    ensures { result ≡ verb_in (room_readers ++ readers ++ others) w.now }
{
    let v = reader(w);
    let v = named_or(w, b"get_trade_costs", Verb::GetTradeCosts, v);
    let v = named_or(w, b"get_pending_orders", Verb::GetPendingOrders, v);
    let v = named_or(w, b"get_holdings", Verb::GetHoldings, v);
    let v = named_or(w, b"get_quotes", Verb::GetQuotes, v);
    named_or(w, b"get_positions", Verb::GetPositions, v)
}

// The verbs that read a symbol, and those of the tables behind.
fn symbol_reader(w: &[u8]) -> Verb
    ensures { result ≡ verb_in (symbol_readers ++ room_readers ++ readers ++ others) w.now }
{
    let v = room_reader(w);
    let v = named_or(w, b"cost_basis", Verb::CostBasis, v);
    let v = named_or(
        w,
        b"get_position_liquidation_value",
        Verb::GetPositionLiquidationValue,
        v,
    );
    let v = named_or(w, b"get_position_value", Verb::GetPositionValue, v);
    let v = named_or(w, b"get_pending_order", Verb::GetPendingOrder, v);
    let v = named_or(w, b"get_position_qty", Verb::GetPositionQty, v);
    named_or(w, b"get_quote", Verb::GetQuote, v)
}

// The verbs that act, and those of the tables behind.
fn mover(w: &[u8]) -> Verb
    ensures { result ≡ verb_in verbs w.now }
{
    let v = symbol_reader(w);
    let v = named_or(w, b"update", Verb::Update, v);
    let v = named_or(w, b"walk", Verb::Walk, v);
    let v = named_or(w, b"check", Verb::Check, v);
    let v = named_or(w, b"delete", Verb::Delete, v);
    let v = named_or(w, b"send_list", Verb::SendList, v);
    let v = named_or(w, b"insert", Verb::Insert, v);
    let v = named_or(w, b"send", Verb::Send, v);
    let v = named_or(w, b"liquidate", Verb::Liquidate, v);
    let v = named_or(w, b"withdraw", Verb::Withdraw, v);
    let v = named_or(w, b"deposit", Verb::Deposit, v);
    let v = named_or(w, b"lend", Verb::Lend, v);
    named_or(w, b"new", Verb::New, v)
}

// The verb of a line's first word, which is empty where the line is blank.
pub fn named(w: &[u8]) -> Verb
    ensures { result ≡ verb_of w.now }
{
    if w.len() == 0 {
        return Verb::Blank;
    }
    mover(w)
}
