// The call of a line: it is made on a broker over lent lists, and answered. docs/SCENARIOS.md has the
// forms.
#![tactic(auto)]

pub mod line_lists;
pub mod list_calls;
pub mod log_calls;
pub mod plain_calls;

ghost use Rattle.std.specs.Prelude.{◌≡◌};

use arrays::clock;
use broker::state::UistBroker;
use calls::call::Call;
use market::trade::Trade;
use std::fmt::Display;
use std::io;
use std::io::Write;
use std::time::CpuClock;

// What makes the call of a line: what tells the time, and where the answer goes. Each call answers, and
// says how many microseconds of processor time it took.
#[derive(Drop)]
pub struct Caller<'a, R, W> {
    pub rt: &'a R,
    pub out: &'a mut W,
}

impl<R: CpuClock, W: Write> Caller<'_, R, W> {
    // A call that began at `from` was made, and is answered.
    fn answer(&mut self, from: Option<u64>, answer: &impl Display) -> io::Result<u64> {
        let micros = clock::since(self.rt, from);
        writeln!(self.out, " {answer}")?;
        Ok(micros)
    }
}

// A line's call with what makes it: a `Caller` and a `line_lists::Job` in one.
#[derive(Drop)]
pub struct Job<'a, R, W> {
    pub rt: &'a R,
    pub out: &'a mut W,
    pub line: &'a [u8],
    pub call: &'a Call,
}

impl<'a, R: CpuClock, W: Write> Job<'a, R, W> {
    fn job(&self) -> line_lists::Job<'a> {
        line_lists::Job {
            line: self.line,
            call: self.call,
        }
    }

    // `Caller::on_lists` of this line.
    pub fn on_lists(&mut self, b: &mut UistBroker) -> io::Result<u64>
        ensures { (self.new.line ≡ self.old.line) × (self.new.call ≡ self.old.call) }
    {
        let job = self.job();
        let mut caller = Caller {
            rt: self.rt,
            out: self.out,
        };
        caller.on_lists(job, b)
    }

    // `Caller::on_log` of this line.
    pub fn on_log(&mut self, b: &mut UistBroker, log: &mut [Trade]) -> io::Result<u64>
        ensures { (self.new.line ≡ self.old.line) × (self.new.call ≡ self.old.call) }
    {
        let job = self.job();
        let mut caller = Caller {
            rt: self.rt,
            out: self.out,
        };
        caller.on_log(job, b, log)
    }
}
