// Lists of orders, as a liquidation or the weights make them.
ghost use Rattle.std.specs.Prelude.{◌≡◌};
ghost use Rattle.portfolio.specs.Lists.{no_orders, with_order, listed};

use market::order::Order;

// Orders that a liquidation or the weights list: the first `count`, in fixed memory, since the engine
// allocates nothing. A list is copied with what holds it, and the type of `arrayvec` is not `Copy`.
#[derive(Clone, Copy)]
pub struct OrderList {
    pub orders: [Order; 256],
    pub count: usize,
}

impl OrderList {
    #[tactic(auto, unfolding(crate::specs::Lists::no_orders))]
    pub fn none() -> OrderList
        ensures { result ≡ no_orders }
    {
        let o = Order::blank();
        OrderList {
            orders: [o; 256],
            count: 0,
        }
    }

    // Lists an order behind the others, where there is a place.
    pub fn push(&mut self, order: Order)
        ensures { self.new ≡ with_order self.old order }
    {
        if self.count < 256 {
            self.orders[self.count] = order;
            self.count += 1;
        }
    }

    // The orders that are listed.
    pub fn orders(&self) -> &[Order]
        ensures { result.now ≡ listed self.now }
    {
        &self.orders[..self.count.min(256)]
    }
}
