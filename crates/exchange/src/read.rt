// What an exchange tells of itself. It draws 16 where its counts do not hold together.
ghost use Rattle.std.specs.Prelude.{◌≡◌};
ghost use Rattle.exchange.specs.State.{trade_count_of};

use crate::state::UistV1;
use market::fault::{Fault, ok_unless};

impl UistV1 {
    // How many trades are in the log, of an exchange that is lent.
    pub fn executed_trade_count_ref(&self) -> Result<u64, Fault>
        ensures { result ≡ trade_count_of self.now }
    {
        ok_unless(self.counts.fault(), self.counts.logged)
    }

    // The same, by value.
    pub fn executed_trade_count(self) -> Result<u64, Fault>
        ensures { result ≡ trade_count_of self }
    {
        self.executed_trade_count_ref()
    }
}
