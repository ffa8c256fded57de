// The forms in which a scenario's values are written (docs/SCENARIOS.md).
ghost use Rattle.std.specs.Prelude.{◌≡◌, ◌+◌, ◌≤◌, Err, IsOkAnd, MatchResult, length, min, take};

use account::BrokerCashEvent;
use broker::read::BrokerState;
use costs::{BrokerCost, Impact};
use market::fault::{Fault, ok_unless};
use market::order::{Order, OrderEvent, OrderType};
use market::quote::Quote;
use market::trade::{Trade, TradeType};
use reads::collected::Holding;
use std::fmt;

// A value, to be written in its form.
#[derive(Clone, Copy)]
pub struct Form<T>(pub T);

// The first rows of a list, as many as were answered, or what was drawn.
pub fn first_rows<T: Copy>(answer: Result<usize, Fault>, rows: &[T]) -> Form<Result<&[T], Fault>>
    ensures { MatchResult answer (λ count. IsOkAnd result.0 (λ first. first.now ≡ take (min count (length rows.now)) rows.now)) (λ fault. result.0 ≡ Err fault) }
{
    Form(answer.map(|count| &rows[..count.min(rows.len())]))
}

// A number as it is: what an answer or a list holds is written by its `Form`, so it has one.
impl fmt::Display for Form<u32> {
    fn fmt<W: fmt::Write>(&self, f: &mut fmt::Formatter<W>) -> fmt::Result {
        let x = self.0;
        write!(f, "{x}")
    }
}

// As above.
impl fmt::Display for Form<u64> {
    fn fmt<W: fmt::Write>(&self, f: &mut fmt::Formatter<W>) -> fmt::Result {
        let x = self.0;
        write!(f, "{x}")
    }
}

// The sixteen digits of a float's bits; all NaNs are written alike. They are put together here, since
// the formatter, which can fill and align them, takes twice as long.
fn float_digits(x: f64) -> [u8; 16] {
    if x.is_nan() {
        return *b"7ff8000000000000";
    }
    let digits = b"0123456789abcdef";
    let mut text = [b'0'; 16];
    for (i, byte) in x.to_bits().to_be_bytes().iter().enumerate() {
        text[2 * i] = digits[(*byte / 16) as usize];
        text[2 * i + 1] = digits[(*byte % 16) as usize];
    }
    text
}

// Digits and colons are text, so nothing is left out.
fn write_text<W: fmt::Write>(f: &mut fmt::Formatter<W>, text: &[u8]) -> fmt::Result {
    f.write_str(str::from_utf8(text).unwrap_or(""))
}

// A float is the digits of its bits.
impl fmt::Display for Form<f64> {
    fn fmt<W: fmt::Write>(&self, f: &mut fmt::Formatter<W>) -> fmt::Result {
        write_text(f, &float_digits(self.0))
    }
}

// A symbol, and an amount of it.
impl fmt::Display for Form<(u32, f64)> {
    fn fmt<W: fmt::Write>(&self, f: &mut fmt::Formatter<W>) -> fmt::Result {
        let (symbol, amount) = self.0;
        let amount = Form(amount);
        write!(f, "{symbol}:{amount}")
    }
}

impl fmt::Display for Form<OrderType> {
    fn fmt<W: fmt::Write>(&self, f: &mut fmt::Formatter<W>) -> fmt::Result {
        let kind = match self.0 {
            OrderType::MarketSell => "ms",
            OrderType::MarketBuy => "mb",
            OrderType::LimitSell => "ls",
            OrderType::LimitBuy => "lb",
            OrderType::StopSell => "ss",
            OrderType::StopBuy => "sb",
        };
        write!(f, "{kind}")
    }
}

impl fmt::Display for Form<Order> {
    fn fmt<W: fmt::Write>(&self, f: &mut fmt::Formatter<W>) -> fmt::Result {
        let order = self.0;
        let kind = Form(order.kind);
        let shares = Form((order.symbol, order.shares));
        write!(f, "{kind}:{shares}:")?;
        match order.price {
            Some(price) => {
                let price = Form(price);
                write!(f, "{price}")
            }
            None => write!(f, "-"),
        }
    }
}

// The order that was taken, or what it drew.
impl fmt::Display for Form<OrderEvent> {
    fn fmt<W: fmt::Write>(&self, f: &mut fmt::Formatter<W>) -> fmt::Result {
        let event = self.0;
        let order = Form(event.order);
        match event.fault {
            None => write!(f, "taken:{order}"),
            Some(fault) => write!(f, "{fault}:{order}"),
        }
    }
}

// Puts a float's digits at a place.
fn put_digits(prices: &mut [u8; 35], at: usize, x: f64)
    requires { at + 16 ≤ 35 }
{
    prices[at..at + 16].copy_from_slice(&float_digits(x));
}

// Bid and ask go out with their colons at once, for the same reason as a float's digits.
impl fmt::Display for Form<Quote> {
    fn fmt<W: fmt::Write>(&self, f: &mut fmt::Formatter<W>) -> fmt::Result {
        let Quote {
            symbol,
            date,
            bid,
            ask,
        } = self.0;
        let mut prices = [b':'; 35];
        put_digits(&mut prices, 1, bid);
        put_digits(&mut prices, 18, ask);
        write!(f, "{symbol}")?;
        write_text(f, &prices)?;
        write!(f, "{date}")
    }
}

// The side's words are the scenario's. The program `two_ticks` has the same words for a text of its own:
// it does not use this crate, and `market` does not say how a trade is written.
impl fmt::Display for Form<Trade> {
    fn fmt<W: fmt::Write>(&self, f: &mut fmt::Formatter<W>) -> fmt::Result {
        let trade = self.0;
        let side = match trade.typ {
            TradeType::Buy => "buy",
            TradeType::Sell => "sell",
        };
        let quantity = Form((trade.symbol, trade.quantity));
        let value = Form(trade.value);
        let date = trade.date;
        write!(f, "{side}:{quantity}:{value}:{date}")
    }
}

impl fmt::Display for Form<Holding> {
    fn fmt<W: fmt::Write>(&self, f: &mut fmt::Formatter<W>) -> fmt::Result {
        let held = Form((self.0.symbol, self.0.quantity));
        write!(f, "{held}")
    }
}

impl fmt::Display for Form<BrokerCost> {
    fn fmt<W: fmt::Write>(&self, f: &mut fmt::Formatter<W>) -> fmt::Result {
        let (name, x) = match self.0 {
            BrokerCost::PerShare(x) => ("per_share", x),
            BrokerCost::PctOfValue(x) => ("pct_of_value", x),
            BrokerCost::Flat(x) => ("flat", x),
        };
        let x = Form(x);
        write!(f, "{name}:{x}")
    }
}

// Two values, as an update's answer is (answer.rt), which has a word before them.
impl fmt::Display for Form<Impact> {
    fn fmt<W: fmt::Write>(&self, f: &mut fmt::Formatter<W>) -> fmt::Result {
        let budget = Form(self.0.budget);
        let price = Form(self.0.price);
        write!(f, "{budget} {price}")
    }
}

impl fmt::Display for Form<BrokerState> {
    fn fmt<W: fmt::Write>(&self, f: &mut fmt::Formatter<W>) -> fmt::Result {
        match self.0 {
            BrokerState::Ready => write!(f, "Ready"),
            BrokerState::Failed => write!(f, "Failed"),
        }
    }
}

// A text as it is: an answer's text is written by its `Form`, as every answer is.
impl fmt::Display for Form<&str> {
    fn fmt<W: fmt::Write>(&self, f: &mut fmt::Formatter<W>) -> fmt::Result {
        let text = self.0;
        write!(f, "{text}")
    }
}

// The amount that was moved, or what was drawn and the amount that was asked for.
impl fmt::Display for Form<BrokerCashEvent> {
    fn fmt<W: fmt::Write>(&self, f: &mut fmt::Formatter<W>) -> fmt::Result {
        let amount = match self.0 {
            BrokerCashEvent::DepositSuccess(x)
            | BrokerCashEvent::WithdrawSuccess(x)
            | BrokerCashEvent::NotFinite(x)
            | BrokerCashEvent::OperationFailure(x)
            | BrokerCashEvent::WithdrawFailure(x)
            | BrokerCashEvent::Broken(x) => Form(x),
        };
        let done = Form(ok_unless(self.0.fault(), "done"));
        write!(f, "{done} {amount}")
    }
}

// What may be missing.
impl<T: Copy> fmt::Display for Form<Option<T>>
where
    Form<T>: fmt::Display,
{
    fn fmt<W: fmt::Write>(&self, f: &mut fmt::Formatter<W>) -> fmt::Result {
        match self.0 {
            Some(x) => {
                let x = Form(x);
                write!(f, "{x}")
            }
            None => write!(f, "none"),
        }
    }
}

// What was answered, or what was drawn.
impl<T: Copy> fmt::Display for Form<Result<T, Fault>>
where
    Form<T>: fmt::Display,
{
    fn fmt<W: fmt::Write>(&self, f: &mut fmt::Formatter<W>) -> fmt::Result {
        match self.0 {
            Ok(x) => {
                let x = Form(x);
                write!(f, "{x}")
            }
            Err(fault) => write!(f, "refused {fault}"),
        }
    }
}

// How many rows there are, and each of them.
impl<T: Copy> fmt::Display for Form<&[T]>
where
    Form<T>: fmt::Display,
{
    fn fmt<W: fmt::Write>(&self, f: &mut fmt::Formatter<W>) -> fmt::Result {
        let rows = self.0;
        let count = rows.len();
        write!(f, "{count}")?;
        for row in rows {
            let row = Form(*row);
            write!(f, " {row}")?;
        }
        Ok(())
    }
}
