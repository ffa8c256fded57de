// The calls that the log is lent to.
use crate::Caller;
use crate::line_lists::Job;
use arrays::clock;
use broker::state::UistBroker;
use calls::call::Call;
use calls::verb::Verb;
use lent::uist;
use market::fault::ok_unless;
use market::trade::Trade;
use report::answer::{Checked, Updated};
use report::form::Form;
use std::io;
use std::io::Write;
use std::time::CpuClock;

// Is the log lent to this call? It is asked before `on_log`, so that no other call enters a frame that
// holds lists. What is left there, in the last case, is the turnover.
pub fn needs_log(c: &Call) -> bool {
    matches!(
        c.verb,
        Verb::New | Verb::Check | Verb::Update | Verb::CostBasis | Verb::Turnover
    )
}

impl<R: CpuClock, W: Write> Caller<'_, R, W> {
    // Where no broker is made, the one that every call refuses is kept.
    #[inline(never)]
    fn build(&mut self, job: Job<'_>, b: &mut UistBroker, log: &[Trade]) -> io::Result<u64> {
        let lists = job.lists();
        let costs = job.costs();
        let from = clock::now(self.rt);
        let fault = arrays::build_in_place_on(b, costs, job.call.lot, &lists, log);
        let micros = self.answer(from, &Form(ok_unless(fault, "built")))?;
        if fault.is_some() {
            *b = UistBroker::none();
        }
        Ok(micros)
    }

    #[inline(never)]
    fn check(&mut self, job: Job<'_>, b: &mut UistBroker, log: &mut [Trade]) -> io::Result<u64> {
        let lists = job.lists();
        let timed = arrays::check_on(self.rt, *b, &lists, log);
        let x = &timed.answer;
        *b = x.broker;
        let checked = Checked {
            traded: x.traded,
            queued: x.queued,
        };
        let answer = Form(ok_unless(x.fault, checked));
        writeln!(self.out, " {answer}")?;
        Ok(timed.micros)
    }

    #[inline(never)]
    fn update(&mut self, job: Job<'_>, b: &mut UistBroker, log: &mut [Trade]) -> io::Result<u64> {
        let lists = job.lists();
        let timed = arrays::update_on(self.rt, *b, &lists, log);
        let x = &timed.answer.answer;
        *b = x.broker;
        let updated = Updated {
            total: x.total,
            events: &timed.answer.list[..x.sent.min(1024)],
        };
        let answer = Form(ok_unless(x.fault, updated));
        writeln!(self.out, " {answer}")?;
        Ok(timed.micros)
    }

    #[inline(never)]
    fn basis(&mut self, job: Job<'_>, b: &UistBroker, log: &[Trade]) -> io::Result<u64> {
        let from = clock::now(self.rt);
        let basis = uist::cost_basis(*b, log, job.call.symbol);
        self.answer(from, &Form(basis))
    }

    #[inline(never)]
    fn turnover(&mut self, b: &UistBroker, log: &[Trade]) -> io::Result<u64> {
        let from = clock::now(self.rt);
        let turnover = uist::turnover(*b, log);
        self.answer(from, &Form(turnover))
    }

    // A call that the log is lent to. Each takes much of the stack, in a frame of its own.
    pub fn on_log(
        &mut self,
        job: Job<'_>,
        b: &mut UistBroker,
        log: &mut [Trade],
    ) -> io::Result<u64> {
        match job.call.verb {
            Verb::New => self.build(job, b, log),
            Verb::Check => self.check(job, b, log),
            Verb::Update => self.update(job, b, log),
            Verb::CostBasis => self.basis(job, b, log),
            _ => self.turnover(b, log),
        }
    }
}
