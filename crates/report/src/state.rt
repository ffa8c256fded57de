// What a broker holds, written a line each. docs/SCENARIOS.md has the forms.
use crate::form::Form;
use broker::state::UistBroker;
use market::fault::Fault;
use std::io;
use std::io::Write;

// A broker beside its turnover, which is read from the log, and where both are written.
#[derive(Drop)]
pub struct State<'a, W> {
    pub out: &'a mut W,
    pub broker: &'a UistBroker,
    pub turnover: Result<f64, Fault>,
}

impl<W: Write> State<'_, W> {
    fn money(&mut self) -> io::Result<()> {
        let cash = Form(self.broker.get_cash_balance_ref());
        let state = Form(self.broker.get_broker_state_ref().state);
        write!(self.out, " cash {cash} state {state}")?;
        let total = Form(self.broker.get_total_value_ref());
        let liquidation = Form(self.broker.get_liquidation_value_ref());
        let turnover = Form(self.turnover);
        writeln!(
            self.out,
            " total {total} liquidation {liquidation} turnover {turnover}"
        )
    }

    // The rest of a line of symbols, each with its amount where it has one.
    fn amounts(&mut self, amounts: &[Option<f64>]) -> io::Result<()> {
        for (symbol, amount) in amounts.iter().enumerate() {
            if let Some(x) = amount {
                let x = Form(*x);
                write!(self.out, " {symbol}:{x}")?;
            }
        }
        writeln!(self.out)
    }

    fn held(&mut self) -> io::Result<()> {
        write!(self.out, " held")?;
        let holding = self.broker.portfolio.funds.holding;
        self.amounts(&holding.map(|x| (x != 0.0).then_some(x)))
    }

    fn pending(&mut self) -> io::Result<()> {
        write!(self.out, " pending")?;
        let broker = self.broker;
        self.amounts(&broker.portfolio.funds.pending)
    }

    fn latest(&mut self) -> io::Result<()> {
        write!(self.out, " latest")?;
        for quote in self.broker.portfolio.latest.rows.iter().flatten() {
            let quote = Form(*quote);
            write!(self.out, " {quote}")?;
        }
        writeln!(self.out)
    }

    // The lines of money, holdings, pending quantities and latest quotes.
    pub fn first_lines(&mut self) -> io::Result<()> {
        self.money()?;
        self.held()?;
        self.pending()?;
        self.latest()
    }

    // A symbol's basis, in the bases' line.
    pub fn basis(&mut self, symbol: u32, basis: Result<Option<f64>, Fault>) -> io::Result<()> {
        let basis = Form(basis.unwrap_or(None));
        write!(self.out, " {symbol}:{basis}")
    }

    // The end of the bases' line, and the head of the trades': how many were logged.
    pub fn trades_head(&mut self) -> io::Result<()> {
        if self.turnover.is_err() {
            let refused = Form(self.turnover);
            write!(self.out, " {refused}")?;
        }
        let count = self.broker.executed_trade_count_ref().unwrap_or(0);
        write!(self.out, "\n trades {count}")
    }

    fn waiting(&mut self) -> io::Result<()> {
        write!(self.out, "\n waiting")?;
        let exchange = &self.broker.exchange;
        let c = exchange.counts;
        for x in exchange.book.iter().skip(c.resting).take(c.waits) {
            let order = Form(x.order);
            write!(self.out, " {order}")?;
        }
        Ok(())
    }

    fn resting(&mut self) -> io::Result<()> {
        write!(self.out, "\n resting")?;
        let exchange = &self.broker.exchange;
        for x in exchange.book.iter().take(exchange.counts.resting) {
            let id = x.id;
            let order = Form(x.order);
            write!(self.out, " {id}:{order}")?;
        }
        writeln!(self.out)
    }

    // The end of the trades' line, and the lines of the book.
    pub fn last_lines(&mut self) -> io::Result<()> {
        self.waiting()?;
        self.resting()
    }
}
