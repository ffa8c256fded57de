// The answers of calls, and of lines that make none. docs/SCENARIOS.md has the forms.
use crate::form::Form;
use account::BrokerCashEvent;
use broker::read::BrokerState;
use costs::Impact;
use market::fault::{After, Fault, ok_unless};
use market::order::OrderEvent;
use market::quote::Quote;
use reasons::Reason;
use reasons::wrong::Why;
use std::fmt;

// The answers of calls that need no lent list.
#[derive(Clone, Copy)]
pub enum Reply {
    Cash(BrokerCashEvent),
    Event(OrderEvent),
    Deleted(Option<Fault>),
    Amount(Result<Option<f64>, Fault>),
    Quote(Result<Option<Quote>, Fault>),
    Float(Result<f64, Fault>),
    Impact(Result<Impact, Fault>),
    Count(Result<u64, Fault>),
    State(After<BrokerState>),
}

impl fmt::Display for Reply {
    fn fmt<W: fmt::Write>(&self, f: &mut fmt::Formatter<W>) -> fmt::Result {
        match *self {
            Reply::Cash(x) => Form(x).fmt(f),
            Reply::Event(x) => Form(x).fmt(f),
            Reply::Deleted(fault) => Form(ok_unless(fault, "done")).fmt(f),
            Reply::Amount(x) => Form(x).fmt(f),
            Reply::Quote(x) => Form(x).fmt(f),
            Reply::Float(x) => Form(x).fmt(f),
            Reply::Impact(x) => Form(x).fmt(f),
            Reply::Count(x) => Form(x).fmt(f),
            Reply::State(x) => Form(ok_unless(x.fault, x.state)).fmt(f),
        }
    }
}

// What a check answers: how many orders traded, and how many sells were queued.
#[derive(Clone, Copy)]
pub struct Checked {
    pub traded: usize,
    pub queued: usize,
}

// What an update answers.
#[derive(Clone, Copy)]
pub struct Updated<'a> {
    pub total: f64,
    pub events: &'a [OrderEvent],
}

impl fmt::Display for Form<Checked> {
    fn fmt<W: fmt::Write>(&self, f: &mut fmt::Formatter<W>) -> fmt::Result {
        let Checked { traded, queued } = self.0;
        write!(f, "traded {traded} queued {queued}")
    }
}

// A word of its own stands before the values, which an impact's form (form.rt) has not.
impl fmt::Display for Form<Updated<'_>> {
    fn fmt<W: fmt::Write>(&self, f: &mut fmt::Formatter<W>) -> fmt::Result {
        let total = Form(self.0.total);
        let events = Form(self.0.events);
        write!(f, "total {total} {events}")
    }
}

impl fmt::Display for Form<Why> {
    fn fmt<W: fmt::Write>(&self, f: &mut fmt::Formatter<W>) -> fmt::Result {
        let text = match self.0 {
            Why::UnknownCall => "unknown call",
            Why::TooFewWords => "too few words",
            Why::TooManyWords => "too many words",
            Why::TooManyRows => "too many rows",
            Why::Tab => "tab",
            Why::CarriageReturn => "carriage return",
            Why::LineTooLong => "line too long",
            Why::NoFloat => "not a float",
            Why::NoWhole => "not a whole number",
            Why::TooLarge => "too large",
            Why::NoSide => "not a side",
            Why::NoOrder => "not an order",
            Why::NoQuote => "not a quote",
            Why::NoVendor => "not a vendor quote",
            Why::NoWeight => "not a weight",
            Why::NoCost => "not a cost",
        };
        write!(f, "{text}")
    }
}

// Which word of a malformed line is wrong, and why.
impl fmt::Display for Form<Reason> {
    fn fmt<W: fmt::Write>(&self, f: &mut fmt::Formatter<W>) -> fmt::Result {
        let word = self.0.word;
        let why = Form(self.0.why);
        write!(f, "{word} {why}")
    }
}
