// A market buy of 10 shares is inserted. The first tick books it, the second trades it on that
// tick's quote, and its trade is printed.
#![tactic(auto)]

use exchange::state::UistV1;
use exchange::tick::Ticked;
use market::order::Order;
use market::quote::Quote;
use market::table::ReadTable;
use market::trade::{Trade, TradeType};
use std::io;

// A table of one row.
fn quoted(bid: f64, ask: f64, date: i64) -> ReadTable {
    ReadTable::of(&[Quote {
        symbol: 7,
        bid,
        ask,
        date,
    }])
}

// `report` has the same two words, for a scenario's text; to use that crate for them would bring in the
// broker and all that it shows.
fn print_trade(rt: &impl Print, t: Trade) -> io::Result<()> {
    let kind = match t.typ {
        TradeType::Buy => "buy",
        TradeType::Sell => "sell",
    };
    println!(rt;
        "{} of symbol {}: quantity {}, value {}, date {}",
        kind, t.symbol, t.quantity, t.value, t.date
    )
}

fn print_tick(rt: &impl Print, x: Ticked) -> io::Result<()> {
    println!(rt; "traded: {}", x.count)?;
    if x.count > 0 {
        print_trade(rt, x.trades[0])?;
    }
    Ok(())
}

fn main(rt: HostRuntime) -> io::Result<()> {
    let inserted = UistV1::new(16).insert_order(Order::market_buy(7, 10.0));
    let first = inserted.state.tick(quoted(99.0, 100.0, 1));
    print_tick(&rt, first)?;
    let second = first.exchange.tick(quoted(101.0, 102.0, 2));
    print_tick(&rt, second)
}
