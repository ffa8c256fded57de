// The form of each call: the words behind its name, and then its lists, each but the last ended by a
// `/`.
use calls::verb::Verb;

// What a word has to be.
#[derive(Clone, Copy, PartialEq)]
pub enum Want {
    Float,
    Whole,
    Symbol,
    Room,
    Log,
    Lot,
    Side,
    Order,
    Quote,
    Vendor,
    Weight,
    Cost,
}

// May it be left out? A word that is not it is then of what comes next.
pub(crate) fn is_optional(want: Want) -> bool {
    want == Want::Lot
}

// The one of these at the place `k`.
fn picked(k: usize, wants: &[Want]) -> Option<Want> {
    wants.get(k).copied()
}

// The word at the place `k` behind the call's name, before its lists. A match, since each verb has words
// of its own.
pub(crate) fn fixed(verb: Verb, k: usize) -> Option<Want> {
    match verb {
        Verb::New => picked(k, &[Want::Log, Want::Lot]),
        Verb::Lend => picked(k, &[Want::Log]),
        Verb::Deposit | Verb::Withdraw | Verb::Liquidate | Verb::Floor | Verb::Ceil => {
            picked(k, &[Want::Float])
        }
        Verb::Send | Verb::Insert => picked(k, &[Want::Order]),
        Verb::Delete => picked(k, &[Want::Whole]),
        Verb::SendList
        | Verb::Walk
        | Verb::Update
        | Verb::GetPositions
        | Verb::GetQuotes
        | Verb::GetHoldings
        | Verb::GetPendingOrders
        | Verb::GetTradeCosts
        | Verb::Correct => picked(k, &[Want::Room]),
        Verb::GetQuote
        | Verb::GetPositionQty
        | Verb::GetPendingOrder
        | Verb::GetPositionValue
        | Verb::GetPositionLiquidationValue
        | Verb::CostBasis => picked(k, &[Want::Symbol]),
        Verb::TradeImpactTotal => picked(k, &[Want::Float, Want::Float, Want::Side]),
        Verb::CalculateTradeCosts => picked(k, &[Want::Float, Want::Float]),
        _ => None,
    }
}

// The rows of the list at the place `k`, of each verb that has lists.
pub(crate) fn row(verb: Verb, k: usize) -> Option<Want> {
    match verb {
        Verb::New => picked(k, &[Want::Cost, Want::Quote]),
        Verb::Check => picked(k, &[Want::Quote, Want::Quote]),
        Verb::Update => picked(k, &[Want::Quote, Want::Quote, Want::Weight]),
        Verb::Walk => picked(k, &[Want::Weight]),
        Verb::SendList => picked(k, &[Want::Order]),
        Verb::Correct => picked(k, &[Want::Vendor]),
        _ => None,
    }
}

// How many rows a list of these has at most: each kind has its own limit.
pub(crate) fn most(want: Want) -> usize {
    match want {
        Want::Cost => 32,
        Want::Order => 1024,
        Want::Vendor => 1100,
        _ => 512,
    }
}
