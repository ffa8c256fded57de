// The exchange's state.
ghost use Rattle.std.specs.Prelude.{◌≡◌};
ghost use Rattle.exchange.specs.State.{booked_as, waiting_row, fresh, broken_of, log_differs, broken_fault, log_fault};

use market::fault::Fault;
use market::order::Order;

// An order in the book. A waiting order has no number yet: 0 stands there, and no `Option`, since no
// call asks for the number of a waiting order.
#[derive(Clone, Copy)]
pub struct Booked {
    pub id: u64,
    pub order: Order,
}

// How many orders rest and wait, how many numbers were given to booked orders, how many orders
// were taken, how many trades were logged, and the log's length.
#[derive(Clone, Copy)]
pub struct Counts {
    pub resting: usize,
    pub waits: usize,
    pub ids: u64,
    pub taken: u64,
    pub logged: u64,
    pub room: u64,
}

// The book has the resting orders first, in book order, then the waiting ones in order of taking. It
// is fixed memory, and the counts say how much of it is used.
#[derive(Clone, Copy)]
pub struct UistV1 {
    pub book: [Booked; 1024],
    pub counts: Counts,
}

impl Booked {
    // An order with its number.
    pub fn numbered(id: u64, order: Order) -> Booked
        ensures { result ≡ booked_as id order }
    {
        Booked { id, order }
    }

    // An order that waits.
    pub fn waiting(order: Order) -> Booked
        ensures { result ≡ waiting_row order }
    {
        Booked::numbered(0, order)
    }
}

impl UistV1 {
    // A fresh exchange for a log of `room` rows.
    #[tactic(auto, unfolding(crate::specs::State::fresh))]
    pub fn new(room: u64) -> UistV1
        ensures { result ≡ fresh room }
    {
        let blank = Booked::waiting(Order::blank());
        UistV1 {
            book: [blank; 1024],
            counts: Counts {
                resting: 0,
                waits: 0,
                ids: 0,
                taken: 0,
                logged: 0,
                room,
            },
        }
    }
}

impl Counts {
    // How many orders a book has place for.
    pub const WIDTH: usize = 1024;

    // Do the counts not hold together? No sum here can wrap.
    pub fn broken(self) -> bool
        ensures { result ≡ broken_of self }
    {
        self.resting > Counts::WIDTH
            || self.waits > Counts::WIDTH - self.resting
            || self.taken > self.room
            || self.ids > self.taken
            || self.logged > self.taken
            || (self.resting + self.waits) as u64 > self.taken - self.logged
    }

    // 16 where they do not hold together.
    #[tactic(auto, unfolding(market::specs::Faults::drawn))]
    pub fn fault(self) -> Option<Fault>
        ensures { result ≡ broken_fault self }
    {
        self.broken().then_some(Fault::Unsound)
    }

    // Is this another length than the log had at the start?
    pub fn log_differs(self, log_length: usize) -> bool
        ensures { result ≡ log_differs self log_length }
    {
        log_length as u64 != self.room
    }

    // 16 also for a log of another length than at the start.
    #[tactic(auto, unfolding(market::specs::Faults::drawn))]
    pub fn fault_for(self, log_length: usize) -> Option<Fault>
        ensures { result ≡ log_fault self log_length }
    {
        (self.log_differs(log_length) || self.broken()).then_some(Fault::Unsound)
    }
}
