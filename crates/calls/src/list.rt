// Lists of rows in a line: they end at a `/` or at the line's end.
#![tactic(auto, unfolding(crate::specs::Lists::order_or_blank, crate::specs::Lists::quote_or_blank, crate::specs::Lists::vendor_or_blank, crate::specs::Lists::weight_or_blank, crate::specs::Lists::cost_or_blank))]

ghost use Rattle.std.specs.Prelude.{◌≡◌, List, ℕ, Option, drop};
ghost use Rattle.words.specs.Words.{words_of};
ghost use Rattle.market.specs.Orders.{blank_order};
ghost use Rattle.market.specs.Quotes.{blank_quote};
ghost use Rattle.market.specs.VendorQuotes.{blank_vendor};
ghost use Rattle.market.specs.Weights.{blank_weight};
ghost use Rattle.rows.specs.Rows.{order_of, quote_of, vendor_of, weight_of, cost_of};
ghost use Rattle.calls.specs.Lists.{is_slash, list_of, spanned, blank_cost, read_rows, read_orders, read_quotes, read_vendors, read_weights, read_costs};

use costs::{BrokerCost, TradeCosts};
use market::order::Order;
use market::quote::Quote;
use market::vendor_quote::VendorQuote;
use market::weight::Weight;
use words::word;

// A list: where its first word is looked for, how many rows it has, and where the words after it
// are looked for.
#[derive(Clone, Copy, Default)]
pub struct Span {
    pub at: usize,
    pub count: usize,
    pub next: usize,
}

// A row that a word can be, and one that stands where a word is none. (The words of a span are rows,
// so none of them is read as a blank.)
pub trait WordRow: Copy {
    // A list has at most so many.
    const MOST: usize;

    ghost MOST: { ℕ };

    ghost row_of: { List ℕ → Option Self };

    ghost blank_row: { Self };

    fn read(w: &[u8]) -> Option<Self>
        ensures { result ≡ row_of w.now };

    fn blank() -> Self
        ensures { result ≡ blank_row };
}

impl WordRow for Quote {
    const MOST: usize = 512;

    ghost MOST = { 512 };

    ghost row_of = { quote_of };

    ghost blank_row = { blank_quote };

    fn read(w: &[u8]) -> Option<Quote> {
        rows::quote(w)
    }

    fn blank() -> Quote {
        Quote::blank()
    }
}

impl WordRow for VendorQuote {
    const MOST: usize = 1100;

    ghost MOST = { 1100 };

    ghost row_of = { vendor_of };

    ghost blank_row = { blank_vendor };

    fn read(w: &[u8]) -> Option<VendorQuote> {
        rows::vendor(w)
    }

    fn blank() -> VendorQuote {
        VendorQuote::blank()
    }
}

impl WordRow for Weight {
    const MOST: usize = 512;

    ghost MOST = { 512 };

    ghost row_of = { weight_of };

    ghost blank_row = { blank_weight };

    fn read(w: &[u8]) -> Option<Weight> {
        rows::weight(w)
    }

    fn blank() -> Weight {
        Weight::blank()
    }
}

impl WordRow for Order {
    const MOST: usize = 1024;

    ghost MOST = { 1024 };

    ghost row_of = { order_of };

    ghost blank_row = { blank_order };

    fn read(w: &[u8]) -> Option<Order> {
        rows::order(w)
    }

    fn blank() -> Order {
        Order::blank()
    }
}

impl WordRow for BrokerCost {
    const MOST: usize = 32;

    ghost MOST = { 32 };

    ghost row_of = { cost_of };

    ghost blank_row = { blank_cost };

    fn read(w: &[u8]) -> Option<BrokerCost> {
        rows::cost(w)
    }

    fn blank() -> BrokerCost {
        BrokerCost::Flat(0.0)
    }
}

fn is_slash(w: &[u8]) -> bool
    ensures { result ≡ is_slash w.now }
{
    word::is_name(w, b"/")
}

// The list of such rows that starts at `at`, of `most` rows at most, where a `/` ends it, or with
// `before` false the line's end: a fact of where the list stands, which only its last word is held
// against.
pub fn span_within<R: WordRow>(line: &[u8], at: usize, most: usize, before: bool) -> Option<Span>
    ensures { spanned line.now result ≡ list_of R.row_of most before (words_of (drop at line.now)) }
{
    let mut i = at;
    let mut count: usize = 0;
    // No index ends it: a word does that is a `/`, or the empty one of the line's end, or no such row, or one
    // too many.
    loop {
        let (w, next) = word::first_at(line, i);
        let slash = is_slash(w);
        if slash | w.is_empty() {
            if slash != before {
                return None;
            }
            return Some(Span { at, count, next });
        }
        if count >= most {
            return None;
        }
        // The word is read as a row to see that it is one.
        R::read(w)?;
        count += 1;
        i = next;
    }
}

// The same, of as many rows at most as a list of them has.
pub fn span_at<R: WordRow>(line: &[u8], at: usize, before: bool) -> Option<Span>
    ensures { spanned line.now result ≡ list_of R.row_of R.MOST before (words_of (drop at line.now)) }
{
    span_within::<R>(line, at, R::MOST, before)
}

// The words of a span, at most `N`, as rows, and blank ones behind them.
fn rows<R: WordRow, const N: usize>(line: &[u8], span: Span) -> [R; N]
    ensures { result ≡ read_rows R.row_of R.blank_row N span.count (words_of (drop span.at line.now)) }
{
    let mut list = [R::blank(); N];
    let mut place = span.at;
    for i in 0..span.count.min(N) {
        let (w, next) = word::first_at(line, place);
        list[i] = R::read(w).unwrap_or(R::blank());
        place = next;
    }
    list
}

// The words of a span, at most 512, as quotes. This and the three below are `rows` at a length each, by the
// names that callers read.
#[tactic(auto, unfolding(crate::specs::Lists::quote_or_blank, crate::specs::Lists::read_quotes))]
pub fn quotes(line: &[u8], span: Span) -> [Quote; 512]
    ensures { result ≡ read_quotes span.count (words_of (drop span.at line.now)) }
{
    rows(line, span)
}

// The words of a span, at most 512, as weights.
#[tactic(auto, unfolding(crate::specs::Lists::weight_or_blank, crate::specs::Lists::read_weights))]
pub fn weights(line: &[u8], span: Span) -> [Weight; 512]
    ensures { result ≡ read_weights span.count (words_of (drop span.at line.now)) }
{
    rows(line, span)
}

// The words of a span, at most 1,024, as orders.
#[tactic(auto, unfolding(crate::specs::Lists::order_or_blank, crate::specs::Lists::read_orders))]
pub fn orders(line: &[u8], span: Span) -> [Order; 1024]
    ensures { result ≡ read_orders span.count (words_of (drop span.at line.now)) }
{
    rows(line, span)
}

// The words of a span, at most 1,100, as vendor quotes.
#[tactic(auto, unfolding(crate::specs::Lists::vendor_or_blank, crate::specs::Lists::read_vendors))]
pub fn vendors(line: &[u8], span: Span) -> [VendorQuote; 1100]
    ensures { result ≡ read_vendors span.count (words_of (drop span.at line.now)) }
{
    rows(line, span)
}

// The words of a span as costs: no array, since `TradeCosts` says how many there were past its places too.
pub fn costs(line: &[u8], span: Span) -> TradeCosts
    ensures { result ≡ read_costs span.count (words_of (drop span.at line.now)) }
{
    let mut list = TradeCosts::none();
    let mut place = span.at;
    for _i in 0..span.count {
        let (w, next) = word::first_at(line, place);
        list = list.with(BrokerCost::read(w).unwrap_or(BrokerCost::blank()));
        place = next;
    }
    list
}
