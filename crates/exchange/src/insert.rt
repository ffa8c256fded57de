// Insertion: an order joins the waiting list.
ghost use Rattle.std.specs.Prelude.{◌≡◌};
ghost use Rattle.market.specs.Faults.{drawn};
ghost use Rattle.exchange.specs.State.{room_of};
ghost use Rattle.exchange.specs.Insert.{insert_tests, has_room, try_join_of, join_of, insert_of};

use crate::state::{Booked, Counts, UistV1};
use market::fault::{After, Fault};
use market::order::Order;

// The counts with one order more that waits, and its place in the book.
#[derive(Clone, Copy)]
pub struct Joining {
    pub counts: Counts,
    pub at: usize,
}

impl Counts {
    // 10 and 11. No sum here can wrap.
    #[tactic(auto, unfolding(market::specs::Faults::drawn))]
    pub fn room_fault(self) -> Option<Fault>
        ensures { result ≡ drawn (room_of self) }
    {
        if self.taken == self.room {
            return Some(Fault::LogFull);
        }
        if self.resting <= Counts::WIDTH && self.waits == Counts::WIDTH - self.resting {
            return Some(Fault::BookFull);
        }
        None
    }

    // 16, 1, 2, 10 and 11.
    #[tactic(auto, using(crate::proofs::Counting::in_turn))]
    fn insert_fault(self, order: Order) -> Option<Fault>
        ensures { result ≡ drawn (insert_tests self order) }
    {
        self.fault().or(order.fault()).or(self.room_fault())
    }

    // Is there room for one more order?
    fn has_room(self) -> bool
        ensures { result ≡ has_room self }
    {
        self.resting < Counts::WIDTH
            && self.waits < Counts::WIDTH - self.resting
            && self.taken < self.room
    }

    // One order more waits, where there is room for it.
    #[tactic(auto, unfolding(crate::specs::Insert::try_join_of))]
    pub fn try_join(self) -> Option<Joining>
        ensures { result ≡ try_join_of self }
    {
        if !self.has_room() {
            return None;
        }
        let counts = Counts {
            waits: self.waits + 1,
            taken: self.taken + 1,
            ..self
        };
        Some(Joining {
            counts,
            at: self.resting + self.waits,
        })
    }

    // The same, for a caller who knows that there is room; where there is none, nothing moves.
    #[tactic(auto, unfolding(crate::specs::Insert::try_join_of, crate::specs::Insert::join_of))]
    pub fn join(self) -> Joining
        ensures { result ≡ join_of self }
    {
        self.try_join().unwrap_or(Joining {
            counts: self,
            at: 0,
        })
    }
}

impl UistV1 {
    // An insertion in place: what the order draws. The state is as it was where it is refused.
    #[tactic(auto, using(crate::proofs::Counting::join_fits, crate::proofs::Counting::joins_by), unfolding(crate::specs::Insert::insert_of))]
    pub fn insert_in_place(&mut self, order: Order) -> Option<Fault>
        ensures { insert_of self.old order ≡ record { state = self.new; fault = result } }
    {
        let fault = self.counts.insert_fault(order);
        if fault.is_none() {
            if let Some(join) = self.counts.try_join() {
                self.book[join.at] = Booked::waiting(order);
                self.counts = join.counts;
            }
        }
        fault
    }

    // The same, by value.
    pub fn insert_order(mut self, order: Order) -> After<UistV1>
        ensures { result ≡ insert_of self order }
    {
        let fault = self.insert_in_place(order);
        After { state: self, fault }
    }
}
