// Trade costs: what they do to a budget and a price, and what they charge on a trade (`BrokerCost` of the Rust).
#![tactic(auto)]

ghost use Rattle.std.specs.Prelude.{◌≡◌};
ghost use Rattle.costs.specs.Costs.{calc, trade_impact, trade_costs, trade_impact_total};
ghost use Rattle.costs.specs.Kept.{costs_of, no_costs, with_cost};

#[derive(Clone, Copy)]
pub enum BrokerCost {
    PerShare(f64),
    PctOfValue(f64),
    Flat(f64),
}

// A budget and a price, net of costs.
#[derive(Clone, Copy)]
pub struct Impact {
    pub budget: f64,
    pub price: f64,
}

// The constructors are the Rust's, for callers: the engine names the variants.
impl BrokerCost {
    pub fn per_share(val: f64) -> Self
        ensures { result ≡ BrokerCost.PerShare val }
    {
        BrokerCost::PerShare(val)
    }

    pub fn pct_of_value(val: f64) -> Self
        ensures { result ≡ BrokerCost.PctOfValue val }
    {
        BrokerCost::PctOfValue(val)
    }

    pub fn flat(val: f64) -> Self
        ensures { result ≡ BrokerCost.Flat val }
    {
        BrokerCost::Flat(val)
    }

    // The charge on a trade.
    #[tactic(auto, unfolding(crate::specs::Costs::calc))]
    pub fn calc(self, quantity: f64, value: f64) -> f64
        ensures { result ≡ calc self quantity value }
    {
        match self {
            BrokerCost::PerShare(cost) => cost * quantity,
            BrokerCost::PctOfValue(pct) => value * pct,
            BrokerCost::Flat(val) => val,
        }
    }

    #[tactic(auto, unfolding(crate::specs::Costs::trade_impact))]
    pub fn trade_impact(self, gross: Impact, is_buy: bool) -> Impact
        ensures { result ≡ trade_impact self gross is_buy }
    {
        let mut net = gross;
        match self {
            // A fee per share raises the price of a buy and lowers that of a sale: the side is a fact of
            // the call, with no value beside it.
            BrokerCost::PerShare(val) if is_buy => net.price += val,
            BrokerCost::PerShare(val) => net.price -= val,
            BrokerCost::PctOfValue(pct) => net.budget *= 1.0 - pct,
            BrokerCost::Flat(val) => net.budget -= val,
        }
        net
    }
}

// A broker's costs, in order: the first `count` of the list, which is fixed memory of 16 places, since
// the engine allocates nothing. A count above 16 reads as 16: it shows that there were more, of which
// the builder draws 14. A broker is copied with its costs, and the type of `arrayvec` is not `Copy`.
#[derive(Clone, Copy)]
pub struct TradeCosts {
    pub list: [BrokerCost; 16],
    pub count: usize,
}

impl TradeCosts {
    #[tactic(auto, unfolding(crate::specs::Kept::no_costs))]
    pub fn none() -> Self
        ensures { result ≡ no_costs }
    {
        TradeCosts {
            list: [BrokerCost::Flat(0.0); 16],
            count: 0,
        }
    }

    // One cost more. Past 16 only the count rises, which shows that there were more.
    #[tactic(auto, unfolding(crate::specs::Kept::with_cost))]
    pub fn with(mut self, cost: BrokerCost) -> Self
        ensures { result ≡ with_cost self cost }
    {
        if self.count < 16 {
            self.list[self.count] = cost;
        }
        self.count = self.count.saturating_add(1);
        self
    }

    // The costs that are kept.
    #[tactic(auto, unfolding(crate::specs::Kept::costs_of))]
    pub fn costs(&self) -> &[BrokerCost]
        ensures { result.now ≡ costs_of self.now }
    {
        &self.list[..self.count.min(16)]
    }
}

// What the costs leave of a budget and a price, one after the other.
#[tactic(auto, unfolding(crate::specs::Costs::trade_impact_total))]
fn net_of(costs: &[BrokerCost], gross: Impact, is_buy: bool) -> Impact
    ensures { result ≡ trade_impact_total costs.now gross.budget gross.price is_buy }
{
    let mut net = gross;
    for cost in costs {
        net = cost.trade_impact(net, is_buy);
    }
    net
}

// The same, for values that are worked out inside: nothing is tested. A broker's `trade_impact_total`
// draws its numbers first. Budget and price go apart, as in the Rust's call of that name. Without costs
// nothing is gone over, nor copied: this is asked for each position.
#[tactic(auto, unfolding(crate::specs::Costs::trade_impact_total, crate::specs::Kept::costs_of))]
pub fn net_of_costs(costs: TradeCosts, gross_budget: f64, gross_price: f64, is_buy: bool) -> Impact
    ensures { result ≡ trade_impact_total (costs_of costs) gross_budget gross_price is_buy }
{
    let gross = Impact {
        budget: gross_budget,
        price: gross_price,
    };
    if costs.count == 0 {
        return gross;
    }
    net_of(costs.costs(), gross, is_buy)
}

// What the costs charge on a trade; nothing is tested. A broker's `calculate_trade_costs` draws its
// numbers first.
#[tactic(auto, unfolding(crate::specs::Costs::trade_costs))]
pub fn charges(costs: TradeCosts, quantity: f64, value: f64) -> f64
    ensures { result ≡ trade_costs (costs_of costs) quantity value }
{
    let mut sum = 0.0;
    for cost in costs.costs() {
        sum += cost.calc(quantity, value);
    }
    sum
}
