// A line as a call: its verb, its scalars, and where its lists are. A line that is of no form is
// malformed.
#![tactic(auto, unfolding(crate::specs::Calls::room_of, crate::specs::Calls::said_if, crate::specs::Calls::lot_at, crate::specs::Calls::said_alone, crate::specs::Calls::said_whole, crate::specs::Calls::said_log, crate::specs::Calls::said_symbol, crate::specs::Calls::said_amount, crate::specs::Calls::said_order, crate::specs::Calls::said_room, crate::specs::Calls::said_quantity, crate::specs::Calls::said_side, crate::specs::Calls::said_new, crate::specs::Calls::said_check, crate::specs::Calls::said_walk, crate::specs::Calls::said_orders, crate::specs::Calls::said_correct, crate::specs::Calls::said_update, crate::specs::Calls::heard, crate::specs::Calls::plain_call, crate::specs::Lists::only_of, crate::specs::Lists::words_in, crate::specs::Lists::first_words, crate::specs::Lists::spanned))]

ghost use Rattle.std.specs.Prelude.{◌≡◌, drop};
ghost use Rattle.std.specs.Option.{option_copied};
ghost use Rattle.words.specs.Words.{words_of};
ghost use Rattle.calls.specs.Lists.{is_empty, only_of};
ghost use Rattle.calls.specs.Calls.{plain_call, heard, heard_or, said, lot_at, room_of, said_alone, said_whole, said_log, said_symbol, said_amount, said_order, said_room, said_quantity, said_side, said_new, said_check, said_walk, said_orders, said_correct, said_update, said_as};

use crate::list::Span;
use crate::verb::Verb;
use crate::{list, verb};
use costs::BrokerCost;
use market::order::Order;
use market::quote::Quote;
use market::vendor_quote::VendorQuote;
use market::weight::Weight;
use words::{number, word};

// What a line asks for. What its verb does not use is 0. No enum with a case for each verb: one reader
// serves up to six verbs, and the contract says field by field what a line says.
#[derive(Clone, Copy)]
pub struct Call {
    pub verb: Verb,
    pub log: u64,
    pub lot: u32,
    pub whole: u64,
    pub symbol: u32,
    pub amount: f64,
    pub second: f64,
    // The side of a call that names one; nothing else goes with it.
    pub is_buy: bool,
    pub order: Order,
    pub room: usize,
    pub costs: Span,
    pub first: Span,
    pub fetched: Span,
    pub weights: Span,
    pub orders: Span,
    pub vendors: Span,
}

pub fn plain(verb: Verb) -> Call
    ensures { result ≡ plain_call verb }
{
    let none = Span::default();
    Call {
        verb,
        log: 0,
        lot: 0,
        whole: 0,
        symbol: 0,
        amount: 0.0,
        second: 0.0,
        is_buy: false,
        order: Order::blank(),
        room: 0,
        costs: none,
        first: none,
        fetched: none,
        weights: none,
        orders: none,
        vendors: none,
    }
}

// The length of a lent list, at most 1,024.
fn room_of(w: &[u8]) -> Option<usize>
    ensures { result ≡ room_of w.now }
{
    let n = number::whole(w)?;
    if n > 1024 {
        return None;
    }
    Some(n as usize)
}

// The words of a line from a place on.
#[derive(Clone, Copy)]
struct Words<'a> {
    line: &'a [u8],
    at: usize,
}

impl<'a> Words<'a> {
    // Is there no word?
    fn is_end(self) -> bool
        ensures { result ≡ is_empty (words_of (drop self.entry.at self.entry.line.now)) }
    {
        let (w, _) = word::first_at(self.line, self.at);
        w.is_empty()
    }

    // The first word where it is the line's last.
    fn only(self) -> Option<&'a [u8]>
        ensures { option_copied result ≡ only_of (words_of (drop self.entry.at self.entry.line.now)) }
    {
        let (w, next) = word::first_at(self.line, self.at);
        Words { at: next, ..self }.is_end().then_some(w)
    }

    // A new broker's lot, which is 1 where the word is none, and where the words behind it are looked
    // for.
    fn lot(self) -> (u32, usize)
        ensures lot { result.0 ≡ (lot_at (words_of (drop self.entry.at self.entry.line.now))).lot }
        ensures rest { words_of (drop result.1 self.entry.line.now) ≡ (lot_at (words_of (drop self.entry.at self.entry.line.now))).behind }
    {
        let (w, next) = word::first_at(self.line, self.at);
        match rows::lot(w) {
            Some(n) => (n, next),
            None => (1, self.at),
        }
    }

    // The call with one word: a verb alone.
    fn alone(self, verb: Verb) -> Option<Call>
        ensures { heard_or self.entry.line.now result ≡ said_alone verb (words_of (drop self.entry.at self.entry.line.now)) }
    {
        self.is_end().then_some(plain(verb))
    }

    // Each of these puts what it reads into another field of the call, by another reader: a common one
    // would take both as closures, and say as much at each use.
    fn with_whole(self, verb: Verb) -> Option<Call>
        ensures { heard_or self.entry.line.now result ≡ said_whole verb (words_of (drop self.entry.at self.entry.line.now)) }
    {
        let whole = number::whole(self.only()?)?;
        Some(Call {
            whole,
            ..plain(verb)
        })
    }

    fn with_log(self, verb: Verb) -> Option<Call>
        ensures { heard_or self.entry.line.now result ≡ said_log verb (words_of (drop self.entry.at self.entry.line.now)) }
    {
        let log = number::whole(self.only()?)?;
        Some(Call { log, ..plain(verb) })
    }

    fn with_symbol(self, verb: Verb) -> Option<Call>
        ensures { heard_or self.entry.line.now result ≡ said_symbol verb (words_of (drop self.entry.at self.entry.line.now)) }
    {
        let symbol = number::symbol(self.only()?)?;
        Some(Call {
            symbol,
            ..plain(verb)
        })
    }

    fn with_amount(self, verb: Verb) -> Option<Call>
        ensures { heard_or self.entry.line.now result ≡ said_amount verb (words_of (drop self.entry.at self.entry.line.now)) }
    {
        let amount = number::float(self.only()?)?;
        Some(Call {
            amount,
            ..plain(verb)
        })
    }

    fn with_order(self, verb: Verb) -> Option<Call>
        ensures { heard_or self.entry.line.now result ≡ said_order verb (words_of (drop self.entry.at self.entry.line.now)) }
    {
        let order = rows::order(self.only()?)?;
        Some(Call {
            order,
            ..plain(verb)
        })
    }

    fn with_room(self, verb: Verb) -> Option<Call>
        ensures { heard_or self.entry.line.now result ≡ said_room verb (words_of (drop self.entry.at self.entry.line.now)) }
    {
        let room = room_of(self.only()?)?;
        Some(Call {
            room,
            ..plain(verb)
        })
    }

    // QUANTITY VALUE
    fn with_quantity(self, verb: Verb) -> Option<Call>
        ensures { heard_or self.entry.line.now result ≡ said_quantity verb (words_of (drop self.entry.at self.entry.line.now)) }
    {
        let (w, next) = word::first_at(self.line, self.at);
        let amount = number::float(w)?;
        let second = number::float(Words { at: next, ..self }.only()?)?;
        Some(Call {
            amount,
            second,
            ..plain(verb)
        })
    }

    // BUDGET PRICE, and `buy` or `sell`
    fn with_side(self, verb: Verb) -> Option<Call>
        ensures { heard_or self.entry.line.now result ≡ said_side verb (words_of (drop self.entry.at self.entry.line.now)) }
    {
        let (w, next) = word::first_at(self.line, self.at);
        let amount = number::float(w)?;
        let (w, next) = word::first_at(self.line, next);
        let second = number::float(w)?;
        let side = Words { at: next, ..self }.only()?;
        let is_buy = word::is_name(side, b"buy");
        if !(is_buy | word::is_name(side, b"sell")) {
            return None;
        }
        Some(Call {
            amount,
            second,
            is_buy,
            ..plain(verb)
        })
    }

    // LOG lot:LOT COST* / QUOTE*, where the lot may be left out
    fn with_costs(self, verb: Verb) -> Option<Call>
        ensures { heard_or self.entry.line.now result ≡ said_new verb (words_of (drop self.entry.at self.entry.line.now)) }
    {
        let (w, next) = word::first_at(self.line, self.at);
        let log = number::whole(w)?;
        let (lot, next) = Words { at: next, ..self }.lot();
        let costs = list::span_at::<BrokerCost>(self.line, next, true)?;
        let first = list::span_at::<Quote>(self.line, costs.next, false)?;
        Some(Call {
            log,
            lot,
            costs,
            first,
            ..plain(verb)
        })
    }

    // QUOTE* / QUOTE*: the tradable table, then the fetched one
    fn with_tables(self, verb: Verb) -> Option<Call>
        ensures { heard_or self.entry.line.now result ≡ said_check verb (words_of (drop self.entry.at self.entry.line.now)) }
    {
        let first = list::span_at::<Quote>(self.line, self.at, true)?;
        let fetched = list::span_at::<Quote>(self.line, first.next, false)?;
        Some(Call {
            first,
            fetched,
            ..plain(verb)
        })
    }

    // ROOM WEIGHT*. This and the next two read a room and a list, each of other rows into another field.
    fn with_walk(self, verb: Verb) -> Option<Call>
        ensures { heard_or self.entry.line.now result ≡ said_walk verb (words_of (drop self.entry.at self.entry.line.now)) }
    {
        let (w, next) = word::first_at(self.line, self.at);
        let room = room_of(w)?;
        let weights = list::span_at::<Weight>(self.line, next, false)?;
        Some(Call {
            room,
            weights,
            ..plain(verb)
        })
    }

    // ROOM ORDER*
    fn with_orders(self, verb: Verb) -> Option<Call>
        ensures { heard_or self.entry.line.now result ≡ said_orders verb (words_of (drop self.entry.at self.entry.line.now)) }
    {
        let (w, next) = word::first_at(self.line, self.at);
        let room = room_of(w)?;
        let orders = list::span_at::<Order>(self.line, next, false)?;
        Some(Call {
            room,
            orders,
            ..plain(verb)
        })
    }

    // ROOM VENDOR*
    fn with_vendors(self, verb: Verb) -> Option<Call>
        ensures { heard_or self.entry.line.now result ≡ said_correct verb (words_of (drop self.entry.at self.entry.line.now)) }
    {
        let (w, next) = word::first_at(self.line, self.at);
        let room = room_of(w)?;
        let vendors = list::span_at::<VendorQuote>(self.line, next, false)?;
        Some(Call {
            room,
            vendors,
            ..plain(verb)
        })
    }

    // ROOM QUOTE* / QUOTE* / WEIGHT*
    fn with_weights(self, verb: Verb) -> Option<Call>
        ensures { heard_or self.entry.line.now result ≡ said_update verb (words_of (drop self.entry.at self.entry.line.now)) }
    {
        let (w, next) = word::first_at(self.line, self.at);
        let room = room_of(w)?;
        let first = list::span_at::<Quote>(self.line, next, true)?;
        let fetched = list::span_at::<Quote>(self.line, first.next, true)?;
        let weights = list::span_at::<Weight>(self.line, fetched.next, false)?;
        Some(Call {
            room,
            first,
            fetched,
            weights,
            ..plain(verb)
        })
    }

    // The call of a verb, with these words, where they are of the verb's form. A match, since each form is
    // another one.
    #[tactic(auto, unfolding(crate::specs::Calls::said_as))]
    fn of_verb(self, verb: Verb) -> Option<Call>
        ensures { heard_or self.entry.line.now result ≡ said_as verb (words_of (drop self.entry.at self.entry.line.now)) }
    {
        match verb {
            Verb::Blank | Verb::Malformed => Some(plain(verb)),
            Verb::New => self.with_costs(verb),
            Verb::Lend => self.with_log(verb),
            Verb::Delete => self.with_whole(verb),
            Verb::Deposit | Verb::Withdraw | Verb::Liquidate | Verb::Floor | Verb::Ceil => {
                self.with_amount(verb)
            }
            Verb::Send | Verb::Insert => self.with_order(verb),
            Verb::SendList => self.with_orders(verb),
            Verb::Check => self.with_tables(verb),
            Verb::Walk => self.with_walk(verb),
            Verb::Update => self.with_weights(verb),
            Verb::GetQuote
            | Verb::GetPositionQty
            | Verb::GetPendingOrder
            | Verb::GetPositionValue
            | Verb::GetPositionLiquidationValue
            | Verb::CostBasis => self.with_symbol(verb),
            Verb::GetPositions
            | Verb::GetQuotes
            | Verb::GetHoldings
            | Verb::GetPendingOrders
            | Verb::GetTradeCosts => self.with_room(verb),
            Verb::TradeImpactTotal => self.with_side(verb),
            Verb::CalculateTradeCosts => self.with_quantity(verb),
            Verb::Correct => self.with_vendors(verb),
            _ => self.alone(verb),
        }
    }
}

// The call of a line, which may be blank.
pub fn of_line(line: &[u8]) -> Call
    ensures { heard line.now result ≡ said (words_of line.now) }
{
    let (w, next) = word::first_at(line, 0);
    let words = Words { line, at: next };
    words
        .of_verb(verb::named(w))
        .unwrap_or(plain(Verb::Malformed))
}
