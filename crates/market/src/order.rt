// Orders, and the numbers that their own fields draw.
ghost use Rattle.std.specs.Prelude.{◌≡◌};
ghost use Rattle.market.specs.declared.order.OrderType.TheVariants.{MarketSell, MarketBuy, LimitSell, LimitBuy, StopSell, StopBuy};
ghost use Rattle.market.specs.Faults.{drawn};
ghost use Rattle.market.specs.Orders.{market_order, blank_order, priced_order, is_sell, is_market, order_tests};

use crate::fault::Fault;

#[derive(Clone, Copy)]
pub enum OrderType {
    MarketSell,
    MarketBuy,
    LimitSell,
    LimitBuy,
    StopSell,
    StopBuy,
}

#[derive(Clone, Copy)]
pub struct Order {
    pub kind: OrderType,
    pub symbol: u32,
    pub shares: f64,
    pub price: Option<f64>,
}

// The order, with the number that it drew, or none where it was taken.
#[derive(Clone, Copy)]
pub struct OrderEvent {
    pub order: Order,
    pub fault: Option<Fault>,
}

// The Rust's constructors, with its parameters in their order.
impl Order {
    fn market(kind: OrderType, symbol: u32, shares: f64) -> Order
        ensures { result ≡ market_order kind symbol shares }
    {
        Order {
            kind,
            symbol,
            shares,
            price: None,
        }
    }

    fn delayed(kind: OrderType, symbol: u32, shares: f64, price: f64) -> Order
        ensures { result ≡ priced_order kind symbol shares price }
    {
        Order {
            kind,
            symbol,
            shares,
            price: Some(price),
        }
    }

    pub fn market_buy(symbol: u32, shares: f64) -> Order
        ensures { result ≡ market_order MarketBuy symbol shares }
    {
        Order::market(OrderType::MarketBuy, symbol, shares)
    }

    pub fn market_sell(symbol: u32, shares: f64) -> Order
        ensures { result ≡ market_order MarketSell symbol shares }
    {
        Order::market(OrderType::MarketSell, symbol, shares)
    }

    // A row that holds no order.
    pub fn blank() -> Order
        ensures { result ≡ blank_order }
    {
        Order::market_sell(0, 0.0)
    }

    pub fn stop_buy(symbol: u32, shares: f64, price: f64) -> Order
        ensures { result ≡ priced_order StopBuy symbol shares price }
    {
        Order::delayed(OrderType::StopBuy, symbol, shares, price)
    }

    pub fn stop_sell(symbol: u32, shares: f64, price: f64) -> Order
        ensures { result ≡ priced_order StopSell symbol shares price }
    {
        Order::delayed(OrderType::StopSell, symbol, shares, price)
    }

    pub fn limit_buy(symbol: u32, shares: f64, price: f64) -> Order
        ensures { result ≡ priced_order LimitBuy symbol shares price }
    {
        Order::delayed(OrderType::LimitBuy, symbol, shares, price)
    }

    pub fn limit_sell(symbol: u32, shares: f64, price: f64) -> Order
        ensures { result ≡ priced_order LimitSell symbol shares price }
    {
        Order::delayed(OrderType::LimitSell, symbol, shares, price)
    }

    pub fn is_sell(self) -> bool
        ensures { result ≡ is_sell self.kind }
    {
        matches!(
            self.kind,
            OrderType::MarketSell | OrderType::LimitSell | OrderType::StopSell
        )
    }

    pub fn is_market(self) -> bool
        ensures { result ≡ is_market self.kind }
    {
        matches!(self.kind, OrderType::MarketSell | OrderType::MarketBuy)
    }

    // 1 and 2 of an order.
    #[tactic(auto, unfolding(crate::specs::Faults::drawn))]
    pub fn fault(self) -> Option<Fault>
        ensures { result ≡ drawn (order_tests self) }
    {
        if self.symbol > 255 {
            return Some(Fault::UnknownSymbol);
        }
        if !floats::finite(self.shares) {
            return Some(Fault::BadValue);
        }
        match self.price {
            Some(price) if !floats::finite(price) => Some(Fault::BadValue),
            _ => None,
        }
    }
}
