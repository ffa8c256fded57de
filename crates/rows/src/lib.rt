// Orders, quotes, vendor quotes, weights, costs and lots as words.
#![tactic(auto, unfolding(crate::specs::Rows::kind_of, crate::specs::Rows::price_of, crate::specs::Rows::order_of, crate::specs::Rows::quote_parts, crate::specs::Rows::quote_of, crate::specs::Rows::revision_of, crate::specs::Rows::vendor_of, crate::specs::Rows::weight_of, crate::specs::Rows::cost_named, crate::specs::Rows::cost_of, crate::specs::Rows::lot_of))]

ghost use Rattle.std.specs.Prelude.{◌≡◌};
ghost use Rattle.rows.specs.Rows.{kind_of, price_of, order_of, quote_parts, quote_of, revision_of, vendor_of, weight_of, cost_named, cost_of, lot_of};

use costs::BrokerCost;
use market::order::{Order, OrderType};
use market::quote::Quote;
use market::vendor_quote::VendorQuote;
use market::weight::Weight;
use words::{number, word};

// The names of the kinds.
const KINDS: [([u8; 2], OrderType); 6] = [
    (*b"mb", OrderType::MarketBuy),
    (*b"ms", OrderType::MarketSell),
    (*b"lb", OrderType::LimitBuy),
    (*b"ls", OrderType::LimitSell),
    (*b"sb", OrderType::StopBuy),
    (*b"ss", OrderType::StopSell),
];

// The kind of this name.
fn kind(s: &[u8]) -> Option<OrderType>
    ensures { result ≡ kind_of s.now }
{
    let named = KINDS.iter().find(|kind| word::is_name(s, &kind.0))?;
    Some(named.1)
}

// A float, or `-` for no price.
fn price(s: &[u8]) -> Option<Option<f64>>
    ensures { result ≡ price_of s.now }
{
    if word::is_name(s, b"-") {
        return Some(None);
    }
    Some(Some(number::float(s)?))
}

// KIND:SYMBOL:SHARES:PRICE
pub fn order(w: &[u8]) -> Option<Order>
    ensures { result ≡ order_of w.now }
{
    if word::parts(w) != 4 {
        return None;
    }
    let kind = kind(word::part(w, 0))?;
    let symbol = number::symbol(word::part(w, 1))?;
    let shares = number::float(word::part(w, 2))?;
    let price = price(word::part(w, 3))?;
    Some(Order {
        kind,
        symbol,
        shares,
        price,
    })
}

// SYMBOL:BID:ASK:DATE, the first four parts of a word.
fn quote_parts(w: &[u8]) -> Option<Quote>
    ensures { result ≡ quote_parts w.now }
{
    let symbol = number::symbol(word::part(w, 0))?;
    let bid = number::float(word::part(w, 1))?;
    let ask = number::float(word::part(w, 2))?;
    let date = number::signed(word::part(w, 3))?;
    Some(Quote {
        symbol,
        bid,
        ask,
        date,
    })
}

// SYMBOL:BID:ASK:DATE
pub fn quote(w: &[u8]) -> Option<Quote>
    ensures { result ≡ quote_of w.now }
{
    if word::parts(w) != 4 {
        return None;
    }
    quote_parts(w)
}

// A whole number that 8 bits hold.
fn revision(s: &[u8]) -> Option<u8>
    ensures { result ≡ revision_of s.now }
{
    u8::try_from(number::whole(s)?).ok()
}

// SYMBOL:BID:ASK:DATE:REVISION
pub fn vendor(w: &[u8]) -> Option<VendorQuote>
    ensures { result ≡ vendor_of w.now }
{
    if word::parts(w) != 5 {
        return None;
    }
    let q = quote_parts(w)?;
    let revision = revision(word::part(w, 4))?;
    Some(VendorQuote {
        symbol: q.symbol,
        bid: q.bid,
        ask: q.ask,
        date: q.date,
        revision,
    })
}

// SYMBOL:FLOAT
pub fn weight(w: &[u8]) -> Option<Weight>
    ensures { result ≡ weight_of w.now }
{
    if word::parts(w) != 2 {
        return None;
    }
    let symbol = number::symbol(word::part(w, 0))?;
    let weight = number::float(word::part(w, 1))?;
    Some(Weight { symbol, weight })
}

// The cost of this name and amount. The names are tested in turn: each makes a cost of the amount, so
// that a table of them, as that of the kinds, would hold functions.
fn cost_named(name: &[u8], x: f64) -> Option<BrokerCost>
    ensures { result ≡ cost_named name.now x }
{
    if word::is_name(name, b"per_share") {
        return Some(BrokerCost::PerShare(x));
    }
    if word::is_name(name, b"pct_of_value") {
        return Some(BrokerCost::PctOfValue(x));
    }
    if word::is_name(name, b"flat") {
        return Some(BrokerCost::Flat(x));
    }
    None
}

// per_share:FLOAT, pct_of_value:FLOAT or flat:FLOAT
pub fn cost(w: &[u8]) -> Option<BrokerCost>
    ensures { result ≡ cost_of w.now }
{
    if word::parts(w) != 2 {
        return None;
    }
    let x = number::float(word::part(w, 1))?;
    cost_named(word::part(w, 0), x)
}

// lot:LOT, a whole number that 32 bits hold
pub fn lot(w: &[u8]) -> Option<u32>
    ensures { result ≡ lot_of w.now }
{
    if word::parts(w) != 2 {
        return None;
    }
    let n = number::symbol(word::part(w, 1))?;
    word::is_name(word::part(w, 0), b"lot").then_some(n)
}
