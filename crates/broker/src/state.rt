// The broker's state by role: the exchange, and the portfolio.
use exchange::state::UistV1;
use portfolio::state::Portfolio;

#[derive(Clone, Copy)]
pub struct UistBroker {
    pub exchange: UistV1,
    pub portfolio: Portfolio,
}

// The broker after a call, and the event that tells of the call: of an order, or of cash. A refusal is
// in the event, with the order or the amount, so this is no `Result`.
#[derive(Clone, Copy)]
pub struct Told<E> {
    pub broker: UistBroker,
    pub event: E,
}

impl UistBroker {
    // What a check adds to a shortfall before it liquidates.
    pub const BUFFER: f64 = 1000.0;
}
