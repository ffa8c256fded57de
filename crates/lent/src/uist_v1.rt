// The exchange on a lent log of trades.
ghost use Rattle.std.specs.Prelude.{◌≡◌};
ghost use Rattle.exchange.specs.Lent.{open_of, lent_tick, lent_log};

use exchange::state::UistV1;
use exchange::tick::TickAnswer;
use market::quote::Quote;
use market::table::ReadTable;
use market::trade::Trade;

// A fresh exchange for this log.
pub fn open(log: &[Trade]) -> UistV1
    ensures { result ≡ open_of log.now }
{
    UistV1::new(log.len() as u64)
}

// Trades and books on these quotes; the trades become the log's newest rows.
pub fn tick(exchange: UistV1, quotes: &[Quote], log: &mut [Trade]) -> TickAnswer
    ensures { (result ≡ lent_tick exchange quotes.now log.old) × (log.new ≡ lent_log exchange quotes.now log.old) }
{
    let t = ReadTable::of(quotes);
    let ticked = exchange.tick_for(t, log.len());
    slices::store(log, ticked.first, &ticked.trades[..ticked.count]);
    ticked.answer()
}
