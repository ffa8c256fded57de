// What the broker holds, shown after a line.
use crate::view::View;
use broker::state::UistBroker;
use lent::uist;
use market::trade::Trade;
use report::form::Form;
use report::state::State;
use std::io;
use std::io::Write;

// The bases of the symbols that have traded.
fn bases(state: &mut State<'_, impl Write>, v: &View, log: &[Trade]) -> io::Result<()> {
    write!(state.out, " basis")?;
    if state.turnover.is_err() {
        return Ok(());
    }
    for (symbol, has_traded) in v.traded.iter().enumerate() {
        if *has_traded {
            let symbol = symbol as u32;
            let basis = uist::cost_basis(*state.broker, log, symbol);
            state.basis(symbol, basis)?;
        }
    }
    Ok(())
}

// The log's rows that hold trades; none where they are not known.
fn logged<'a>(state: &State<'_, impl Write>, log: &'a [Trade]) -> &'a [Trade] {
    if state.turnover.is_err() {
        return &log[..0];
    }
    let count = state.broker.executed_trade_count_ref().unwrap_or(0);
    let count = usize::try_from(count).unwrap_or(log.len());
    &log[..count.min(log.len())]
}

// Shows what the broker holds.
#[inline(never)]
pub(crate) fn show(
    out: &mut impl Write,
    v: &mut View,
    broker: &UistBroker,
    log: &[Trade],
) -> io::Result<()> {
    if let Err(fault) = broker.get_cash_balance_ref() {
        return writeln!(out, " refused {fault}");
    }
    let turnover = uist::turnover(*broker, log);
    let mut state = State {
        out,
        broker,
        turnover,
    };
    let trades = logged(&state, log);
    let new = &trades[v.shown.min(trades.len())..];
    v.see(new);
    v.shown = v.shown.max(trades.len());
    state.first_lines()?;
    bases(&mut state, v, log)?;
    state.trades_head()?;
    for t in new {
        let trade = Form(*t);
        write!(state.out, " {trade}")?;
    }
    state.last_lines()
}
