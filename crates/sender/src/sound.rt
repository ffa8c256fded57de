// The lender's 16, by what it reads of a broker: its counts and its lot. (They are passed alone, since a
// broker by value would be copied.)
ghost use Rattle.std.specs.Prelude.{◌≡◌};
ghost use Rattle.sender.specs.Sound.{sound_fault};

use exchange::state::Counts;
use floats::lot;
use market::fault::Fault;

// 16 where the counts do not hold together, or the lot is out of its range.
#[tactic(auto, unfolding(market::specs::Faults::drawn))]
pub fn fault(counts: Counts, lot: u32) -> Option<Fault>
    ensures { result ≡ sound_fault counts lot }
{
    (counts.broken() || !lot::is_lot(lot)).then_some(Fault::Unsound)
}
