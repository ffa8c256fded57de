// What a line asks for: its call, its tables and weights, its costs, its orders, its vendor's rows.
ghost use Rattle.std.specs.Prelude.{◌≡◌, drop};
ghost use Rattle.words.specs.Words.{words_of};
ghost use Rattle.calls.specs.Lists.{read_orders, read_quotes, read_vendors, read_weights, read_costs};

use arrays::{Lists, Orders};
use calls::call::Call;
use calls::list;
use costs::TradeCosts;
use market::vendor_quote::VendorQuote;

// A line's bytes and its call; the lists are read from the bytes.
#[derive(Clone, Copy)]
pub struct Job<'a> {
    pub line: &'a [u8],
    pub call: &'a Call,
}

impl Job<'_> {
    pub fn lists(self) -> Lists
        ensures tradable { result.tradable ≡ read_quotes self.entry.call.now.first.count (words_of (drop self.entry.call.now.first.at self.entry.line.now)) }
        ensures first { result.first ≡ self.entry.call.now.first.count }
        ensures fetched { result.fetched ≡ read_quotes self.entry.call.now.fetched.count (words_of (drop self.entry.call.now.fetched.at self.entry.line.now)) }
        ensures second { result.second ≡ self.entry.call.now.fetched.count }
        ensures weights { result.weights ≡ read_weights self.entry.call.now.weights.count (words_of (drop self.entry.call.now.weights.at self.entry.line.now)) }
        ensures third { result.third ≡ self.entry.call.now.weights.count }
        ensures room { result.room ≡ self.entry.call.now.room }
    {
        let c = self.call;
        Lists {
            tradable: list::quotes(self.line, c.first),
            first: c.first.count,
            fetched: list::quotes(self.line, c.fetched),
            second: c.fetched.count,
            weights: list::weights(self.line, c.weights),
            third: c.weights.count,
            room: c.room,
        }
    }

    pub fn costs(self) -> TradeCosts
        ensures { result ≡ read_costs self.entry.call.now.costs.count (words_of (drop self.entry.call.now.costs.at self.entry.line.now)) }
    {
        list::costs(self.line, self.call.costs)
    }

    pub fn orders(self) -> Orders
        ensures list { result.list ≡ read_orders self.entry.call.now.orders.count (words_of (drop self.entry.call.now.orders.at self.entry.line.now)) }
        ensures count { result.count ≡ self.entry.call.now.orders.count }
        ensures room { result.room ≡ self.entry.call.now.room }
    {
        let c = self.call;
        Orders {
            list: list::orders(self.line, c.orders),
            count: c.orders.count,
            room: c.room,
        }
    }

    pub fn vendors(self) -> [VendorQuote; 1100]
        ensures { result ≡ read_vendors self.entry.call.now.vendors.count (words_of (drop self.entry.call.now.vendors.at self.entry.line.now)) }
    {
        list::vendors(self.line, self.call.vendors)
    }
}
