// What a run keeps beside the broker: the lent log's rows, what is shown, and the calls' time.
ghost use Rattle.std.specs.Prelude.{◌≡◌, ◌≢◌, ◌+◌, min, true, false};
ghost use Rattle.calls.specs.declared.verb.Verb.TheVariants.{State};

use calls::call::Call;
use calls::verb::Verb;
use market::trade::Trade;
use std::io;
use std::io::Write;

// `rows` of the log are lent; the first `shown` trades were shown, and `traded` says which symbols
// they are of; `calls` were made since the last `clock`, in `micros`.
#[derive(Clone, Copy)]
pub struct View {
    pub rows: usize,
    // A setting, which nothing goes with.
    pub quiet: bool,
    pub shown: usize,
    // A set of symbols, with a place for each.
    pub traded: [bool; 256],
    pub calls: u64,
    pub micros: u64,
}

// Is this a call on a broker?
fn is_call(c: &Call) -> bool {
    !matches!(
        c.verb,
        Verb::Blank
            | Verb::Malformed
            | Verb::Lend
            | Verb::State
            | Verb::Quiet
            | Verb::Full
            | Verb::Clock
    )
}

impl View {
    pub fn new() -> View {
        View {
            rows: 0,
            quiet: false,
            shown: 0,
            traded: [false; 256],
            calls: 0,
            micros: 0,
        }
    }

    // The log of a `new` has the rows that it names, and none of its trades was shown.
    pub fn renew(&mut self, rows: usize)
        ensures rows { self.new.rows ≡ rows }
        ensures shown { self.new.shown ≡ 0 }
        ensures calls { (self.new.calls ≡ self.old.calls) × (self.new.micros ≡ self.old.micros) }
    {
        self.rows = rows;
        self.shown = 0;
        self.traded = [false; 256];
    }

    // A call was made, in so many microseconds.
    pub fn count(&mut self, micros: u64)
        ensures calls { self.new.calls ≡ min (self.old.calls + 1) 18446744073709551615 }
        ensures micros { self.new.micros ≡ min (self.old.micros + micros) 18446744073709551615 }
    {
        self.calls = self.calls.saturating_add(1);
        self.micros = self.micros.saturating_add(micros);
    }

    // A line that makes no call is answered. What is left in the last case is `state`: one more, for the
    // calls, would never be taken.
    pub fn set(&mut self, out: &mut impl Write, c: &Call) -> io::Result<()> {
        match c.verb {
            Verb::Lend => {
                self.rows = c.log as usize;
                writeln!(out, " lent")
            }
            Verb::Quiet => {
                self.quiet = true;
                writeln!(out, " quiet")
            }
            Verb::Full => {
                self.quiet = false;
                writeln!(out, " full")
            }
            Verb::Clock => {
                let (calls, micros) = (self.calls, self.micros);
                self.calls = 0;
                self.micros = 0;
                writeln!(out, " {calls} {micros}")
            }
            _ => writeln!(out, " shown"),
        }
    }

    // Is what the broker holds shown after this line?
    pub fn shows(&self, c: &Call) -> bool
        ensures state { c.now.verb ≡ State → result ≡ true }
        ensures quiet { self.now.quiet ≡ true → c.now.verb ≢ State → result ≡ false }
    {
        match c.verb {
            Verb::State => true,
            Verb::Floor | Verb::Ceil | Verb::Correct => false,
            _ => !self.quiet && is_call(c),
        }
    }

    // Trades are seen: their symbols have traded.
    pub fn see(&mut self, trades: &[Trade]) {
        for t in trades {
            if let Some(traded) = self.traded.get_mut(t.symbol as usize) {
                *traded = true;
            }
        }
    }
}
