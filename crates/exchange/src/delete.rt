// Deletion: a resting order leaves the book.
ghost use Rattle.std.specs.Prelude.{◌≡◌, ◌+◌, ◌<◌, ◌≤◌, length};
ghost use Rattle.lists.specs.Lists.{first_from};
ghost use Rattle.exchange.specs.Delete.{has_number, moved_of, delete_of};

use crate::state::{Booked, UistV1};
use market::fault::{After, Fault};

// Where a number stands among resting orders. Sixteen bits count the places (document 02, request 3),
// of which the book has 1,024; a number has 64. A slice's type has no such bound, so it is asked for:
// `delete_in_place` has it from its test for 16.
fn place_of(resting: &[Booked], order_id: u64) -> Option<usize>
    requires { length resting.now ≤ 1024 }
    ensures { result ≡ first_from 0 (has_number order_id) resting.now }
{
    for i in 0..resting.len() as u16 {
        let at = i as usize;
        if resting[at].id == order_id {
            return Some(at);
        }
    }
    None
}

// Takes the order at a place out of the first `until` of a book: those behind it move up by one. What is
// asked follows from the test for 16 and the search, as counts are plain data.
fn move_up(book: &mut [Booked; 1024], at: usize, until: usize)
    requires { (at < until) × (until ≤ 1024) }
    ensures { book.new ≡ moved_of book.old at until }
{
    book.copy_within(at + 1..until, at);
}

impl UistV1 {
    // A deletion in place: 16. An unknown or waiting order: nothing.
    #[tactic(auto, using(crate::proofs::Counting::few_booked, crate::proofs::Removing::found_rests), unfolding(crate::specs::Delete::delete_of, crate::specs::Delete::removed_of))]
    pub fn delete_in_place(&mut self, order_id: u64) -> Option<Fault>
        ensures { delete_of self.old order_id ≡ record { state = self.new; fault = result } }
    {
        let fault = self.counts.fault();
        if fault.is_none() {
            if let Some(at) = place_of(&self.book[..self.counts.resting], order_id) {
                let until = self.counts.resting + self.counts.waits;
                move_up(&mut self.book, at, until);
                self.counts.resting -= 1;
            }
        }
        fault
    }

    // The same, by value.
    pub fn delete_order(mut self, order_id: u64) -> After<UistV1>
        ensures { result ≡ delete_of self order_id }
    {
        let fault = self.delete_in_place(order_id);
        After { state: self, fault }
    }
}
