// A scenario's run: line by line a call is made and answered, and what the broker holds is shown.
ghost use Rattle.std.specs.Prelude.{◌≤◌};

use crate::output::Output;
use crate::show;
use crate::view::View;
use arrays::clock;
use broker::state::UistBroker;
use calls::call::Call;
use calls::verb::Verb;
use costs::TradeCosts;
use dispatch::line_lists::Job;
use dispatch::{Caller, list_calls, log_calls, plain_calls};
use market::order::Order;
use market::table::ReadTable;
use market::trade::Trade;
use report::answer::Reply;
use report::form::Form;
use std::io;
use std::io::{Read, Write};
use std::time::CpuClock;
use text::failed;
use text::failed::Failed;
use text::input::{Line, Lines};

// A run beside its input, its broker and its log: what tells the time, where the answers go, and what
// is kept. `reads_on` says whether the input is read once more where a write fails.
#[derive(Drop)]
struct Session<'a, R, W> {
    rt: &'a R,
    out: W,
    view: View,
    reads_on: bool,
}

impl<R: CpuClock, W: Write> Session<'_, R, W> {
    // Writes the head of a line's answer, its number and its first word or `malformed`, and says when
    // the line's call began. Where the head cannot be written, or an answer after which the broker is
    // shown, the run ends without another read; where another answer cannot, it reads once more.
    fn begin(&mut self, line: Line<'_>, c: &Call) -> io::Result<Option<u64>> {
        let number = line.number;
        let word = match c.verb {
            Verb::Malformed => b"malformed",
            _ => line.first_word(),
        };
        self.reads_on = false;
        write!(self.out, "{number} ")?;
        self.out.write_all(word)?;
        self.reads_on = log_calls::needs_log(c) || !self.view.shows(c);
        Ok(clock::now(self.rt))
    }

    // A call that began at `from` was made, and is answered.
    fn reply(&mut self, from: Option<u64>, reply: Reply) -> io::Result<()> {
        self.view.count(clock::since(self.rt, from));
        writeln!(self.out, " {reply}")
    }

    // A liquidation. The broker that it leaves takes much of the stack, so it is no part of the frame
    // that the other lines have.
    #[inline(never)]
    fn liquidate(&mut self, from: Option<u64>, b: &mut UistBroker, amount: f64) -> io::Result<()> {
        let x = b.withdraw_cash_with_liquidation(amount);
        self.reply(from, Reply::Cash(x.event))?;
        *b = x.broker;
        Ok(())
    }

    // An insertion, out of the frame of the run's loop.
    #[inline(never)]
    fn insert(&mut self, from: Option<u64>, b: &mut UistBroker, order: Order) -> io::Result<()> {
        let event = b.insert_in_place(order);
        self.reply(from, Reply::Event(event))
    }

    // A deletion, as an insertion.
    #[inline(never)]
    fn delete(&mut self, from: Option<u64>, b: &mut UistBroker, order_id: u64) -> io::Result<()> {
        let fault = b.delete_in_place(order_id);
        self.reply(from, Reply::Deleted(fault))
    }

    // What makes a line's call and answers it where the run answers.
    fn caller(&mut self) -> Caller<'_, R, W> {
        Caller {
            rt: self.rt,
            out: &mut self.out,
        }
    }

    // A line whose call the log is lent to.
    fn log_call(&mut self, job: Job<'_>, b: &mut UistBroker, log: &mut [Trade]) -> io::Result<()> {
        if matches!(job.call.verb, Verb::New) {
            self.view.renew(job.call.log as usize);
        }
        let rows = self.view.rows.min(log.len());
        let micros = self.caller().on_log(job, b, &mut log[..rows])?;
        self.view.count(micros);
        Ok(())
    }

    // A line whose call is answered by a list, and needs no log.
    fn list_call(&mut self, job: Job<'_>, b: &mut UistBroker) -> io::Result<()> {
        let micros = self.caller().on_lists(job, b)?;
        self.view.count(micros);
        Ok(())
    }

    // A call that changes nothing and is answered by no list, or a line that makes no call.
    #[inline(never)]
    fn ask(&mut self, from: Option<u64>, b: &UistBroker, c: &Call) -> io::Result<()> {
        match plain_calls::ask(b, c) {
            Some(reply) => self.reply(from, reply),
            None => self.view.set(&mut self.out, c),
        }
    }

    // A line that is no deposit, withdrawal or order.
    #[inline(never)]
    fn answer(
        &mut self,
        from: Option<u64>,
        b: &mut UistBroker,
        line: Line<'_>,
        c: &Call,
        log: &mut [Trade],
    ) -> io::Result<()> {
        let job = Job {
            line: line.bytes(),
            call: c,
        };
        match c.verb {
            Verb::Malformed => {
                let reason = Form(line.reason(log.len()));
                writeln!(self.out, " {reason}")
            }
            Verb::Liquidate => self.liquidate(from, b, c.amount),
            Verb::Insert => self.insert(from, b, c.order),
            Verb::Delete => self.delete(from, b, c.whole),
            _ if log_calls::needs_log(c) => self.log_call(job, b, log),
            _ if list_calls::is_listed(c) => self.list_call(job, b),
            _ => self.ask(from, b, c),
        }
    }

    // Shows what the broker holds, where this line asks for it.
    fn show(&mut self, b: &UistBroker, c: &Call, log: &[Trade]) -> io::Result<()> {
        self.reads_on = true;
        if !self.view.shows(c) {
            return Ok(());
        }
        let rows = self.view.rows.min(log.len());
        show::show(&mut self.out, &mut self.view, b, &log[..rows])
    }

    // The next line: what was answered is written before it is waited for.
    fn next_line<'i>(
        &mut self,
        input: &'i mut Lines<'_, impl Read + Drop>,
    ) -> Result<Option<Line<'i>>, Failed> {
        if input.waits() {
            self.out.flush()?;
        }
        input.next_line().map_err(Failed::Input)
    }

    // Answers the input's lines. The broker that a deposit or a withdrawal leaves is kept at once: behind
    // another function it would be copied, which takes longer than the call.
    fn run_lines(
        &mut self,
        input: &mut Lines<'_, impl Read + Drop>,
        log: &mut [Trade],
    ) -> Result<(), Failed> {
        let mut b = first_broker();
        // A proved loop has to end, so it counts lines up to a number that no input reaches.
        for _ in 0..u64::MAX {
            let Some(line) = self.next_line(input)? else {
                break;
            };
            if line.is_blank() {
                continue;
            }
            let c = line.call(log.len());
            let from = self.begin(line, &c)?;
            match c.verb {
                Verb::Deposit => {
                    let x = b.deposit_cash(c.amount);
                    b = x.broker;
                    self.reply(from, Reply::Cash(x.event))?;
                }
                Verb::Withdraw => {
                    let x = b.withdraw_cash(c.amount);
                    b = x.broker;
                    self.reply(from, Reply::Cash(x.event))?;
                }
                Verb::Send => {
                    let event = b.send_in_place(c.order);
                    self.reply(from, Reply::Event(event))?;
                }
                _ => self.answer(from, &mut b, line, &c, log)?,
            }
            self.show(&b, &c, log)?;
        }
        Ok(self.out.flush()?)
    }
}

// The broker before the first `new`: no log, no quotes.
fn first_broker() -> UistBroker {
    let built = UistBroker::build(TradeCosts::none(), 1, ReadTable::empty(), 0);
    built.unwrap_or(UistBroker::none())
}

// Tells what kept the run from its end. Where a write failed and the run reads on, the input is read once
// more where a line has to be waited for, and what fails there is told too.
fn tell_end(
    rt: &impl Eprint,
    input: &mut Lines<'_, impl Read + Drop>,
    ended: Result<(), Failed>,
    reads_on: bool,
) {
    let is_lost = matches!(ended, Err(Failed::Output(_)));
    failed::tell(rt, ended);
    if is_lost && reads_on {
        failed::tell(rt, input.read_on().map_err(Failed::Input));
    }
}

// Runs the scenario on standard input, with a log of so many rows. They and the buffers stand on the
// stack, so they are no part of the frame of `main`, which asks for the stack's limit first.
#[inline(never)]
fn run<const ROWS: usize>(rt: &(impl io::Input + Print + Eprint + CpuClock))
    requires { ROWS ≤ 1048576 }
{
    let mut log = [Trade::blank(); ROWS];
    let mut read = [0; 65536];
    let mut written = [0; 65536];
    let mut input = Lines::new(rt.reader(), &mut read);
    let mut session = Session {
        rt,
        out: Output::new(rt, &mut written),
        view: View::new(),
        reads_on: true,
    };
    let ended = session.run_lines(&mut input, &mut log);
    tell_end(rt, &mut input, ended, session.reads_on);
}

// A run whose log has at most 65,536 rows.
pub fn with_small_log(rt: &(impl io::Input + Print + Eprint + CpuClock)) {
    run::<65536>(rt);
}

// A run whose log has at most 1,048,576 rows.
pub fn with_large_log(rt: &(impl io::Input + Print + Eprint + CpuClock)) {
    run::<1048576>(rt);
}
