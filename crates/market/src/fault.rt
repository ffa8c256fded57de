// The refusals of document 01 and 02 by name, and the number of each.
ghost use Rattle.std.specs.Prelude.{◌≡◌, Some, decimal};
ghost use Rattle.market.specs.Faults.{unless_drawn, ok_unless, number_of};

use std::fmt;

// What a call draws. A call that draws nothing answers `None` in its place, or `Ok`.
#[derive(Clone, Copy, PartialEq, Eq)]
pub enum Fault {
    UnknownSymbol = 1,
    BadValue,
    NotAscending,
    BrokerFailed,
    Unquoted,
    NotMarket,
    ExceedsCash,
    ExceedsHolding,
    ZeroShares,
    LogFull,
    BookFull,
    WithdrawFailed,
    NothingToWeigh,
    TooManyCosts,
    ListTooShort,
    Unsound,
    LotOutOfRange,
    BeyondLot,
    MalformedLine,
    TextTooLong,
    AlikeRows,
    TooManyRows,
}

impl Fault {
    // The paper's number.
    pub fn number(self) -> u32
        ensures { result ≡ number_of self }
    {
        self as u32
    }
}

// The number is what is written.
impl fmt::Display for Fault {
    ghost output = { λ fault. Some (decimal (number_of fault)) };

    fn fmt<W: fmt::Write>(&self, f: &mut fmt::Formatter<W>) -> fmt::Result {
        let number = self.number();
        write!(f, "{number}")
    }
}

// The state after a call, or the one that is asked for, and what the call drew: a call that is refused
// answers the state too, so this is no `Result`.
#[derive(Clone, Copy)]
pub struct After<S> {
    pub state: S,
    pub fault: Option<Fault>,
}

// What is answered: `value`, or what was drawn.
pub fn ok_unless<T: Copy>(fault: Option<Fault>, value: T) -> Result<T, Fault>
    ensures { result ≡ ok_unless fault value }
{
    match fault {
        None => Ok(value),
        Some(fault) => Err(fault),
    }
}

// `value`, or `none` where something was drawn.
pub fn unless_drawn<T: Copy>(fault: Option<Fault>, value: T, none: T) -> T
    ensures { result ≡ unless_drawn fault value none }
{
    if fault.is_none() { value } else { none }
}
