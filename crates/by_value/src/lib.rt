// Tests of the reads by value and of a line's call with its caller, on one broker whose figures are worked
// out by hand. The programs go by the lent forms. The crate has no other code.
#![tactic(auto)]

#[cfg(test)]
mod tests {
    use arrays::{Lists, read};
    use broker::read::BrokerState;
    use broker::state::UistBroker;
    use calls::call;
    use costs::{BrokerCost, TradeCosts};
    use dispatch::{Job, log_calls};
    use lent::uist;
    use market::order::Order;
    use market::quote::Quote;
    use market::trade::Trade;
    use market::weight::{Weight, Weights};
    use reads::collected::Holding;
    use reads::uist as readers;
    use std::io;

    const HALF: Weight = Weight {
        symbol: 3,
        weight: 0.5,
    };

    const NO_HOLDING: Holding = Holding {
        symbol: 0,
        quantity: 0.0,
    };

    fn quoted(bid: f64, ask: f64, date: i64) -> [Quote; 1] {
        [Quote {
            symbol: 3,
            bid,
            ask,
            date,
        }]
    }

    // Half of what the broker is worth, in an array of weights.
    fn halved() -> Lists {
        let mut weights = [Weight::blank(); 512];
        weights[0] = HALF;
        Lists {
            tradable: [Quote::blank(); 512],
            first: 0,
            fetched: [Quote::blank(); 512],
            second: 0,
            weights,
            third: 1,
            room: 4,
        }
    }

    // 10 shares were bought for 102 each, of 10,000 in cash, and 5 more are waited for. The quote is 101
    // and 102. A trade's cost is 1, which is not charged to cash (document 01, section 4).
    fn holds_ten(log: &mut [Trade; 4]) -> UistBroker {
        let costs = TradeCosts::none().with(BrokerCost::flat(1.0));
        let built = uist::build(costs, 1, &quoted(99.0, 100.0, 1), log);
        let fresh = built.unwrap_or(UistBroker::none());
        let paid = fresh.deposit_cash(10000.0).broker;
        let sent = paid.send_order(Order::market_buy(3, 10.0)).broker;
        let second = quoted(99.0, 100.0, 2);
        let booked = uist::check(sent, &second, &second, log).broker;
        let third = quoted(101.0, 102.0, 3);
        let traded = uist::check(booked, &third, &third, log).broker;
        traded.send_order(Order::market_buy(3, 5.0)).broker
    }

    #[test]
    fn reads_of_a_broker(rt: HostRuntime) {
        let mut log = [Trade::blank(); 4];
        let b = holds_ten(&mut log);
        let last = quoted(101.0, 102.0, 3)[0];
        assert!(rt; b.get_quote(3) == Ok(Some(last)));
        assert!(rt; b.get_position_qty(3) == Ok(Some(10.0)));
        assert!(rt; b.get_pending_order(3) == Ok(Some(5.0)));
        assert!(rt; b.get_position_value(3) == Ok(Some(1010.0)));
        assert!(rt; b.get_position_liquidation_value(3) == Ok(Some(1009.0)));
        assert!(rt; b.get_total_value() == Ok(9990.0));
        assert!(rt; b.get_liquidation_value() == Ok(9989.0));
        assert!(rt; b.get_cash_balance() == Ok(8980.0));
        assert!(rt; matches!(b.get_broker_state().state, BrokerState::Ready));
        assert!(rt; b.executed_trade_count() == Ok(1));
        assert!(rt; b.exchange.executed_trade_count() == Ok(1));
        let net = b.trade_impact_total(1000.0, 10.0, true).ok();
        assert!(rt; net.map(|x| (x.budget, x.price)) == Some((999.0, 10.0)));
        assert!(rt; b.calculate_trade_costs(2.0, 20.0) == Ok(1.0));
    }

    #[test]
    fn reads_of_its_lists(rt: HostRuntime) {
        let mut log = [Trade::blank(); 4];
        let b = holds_ten(&mut log);
        let mut positions = [9; 2];
        assert!(rt; readers::get_positions(b, &mut positions) == Ok(1));
        assert!(rt; positions == [3, 9]);
        let mut rows = [NO_HOLDING; 2];
        assert!(rt; readers::get_holdings(b, &mut rows) == Ok(1));
        assert!(rt; rows.map(|x| (x.symbol, x.quantity)) == [(3, 10.0), (0, 0.0)]);
        assert!(rt; readers::get_pending_orders(b, &mut rows) == Ok(1));
        assert!(rt; rows.map(|x| (x.symbol, x.quantity)) == [(3, 5.0), (0, 0.0)]);
        let mut quotes = [Quote::blank(); 2];
        assert!(rt; readers::get_quotes(b, &mut quotes) == Ok(1));
        assert!(rt; quotes == [quoted(101.0, 102.0, 3)[0], Quote::blank()]);
        let mut costs = [BrokerCost::flat(0.0); 2];
        assert!(rt; readers::get_trade_costs(b, &mut costs) == Ok(1));
        assert!(rt; costs.map(|x| x.calc(2.0, 20.0)) == [1.0, 0.0]);
    }

    // Half of 9,989 is 4,994.5, and 1,010 of it are held: 3,984.5, less a cost of 1, buys 39 shares.
    #[test]
    fn walk_alone(rt: HostRuntime) {
        let mut log = [Trade::blank(); 4];
        let b = holds_ten(&mut log);
        let listed = b
            .diff_against_target_weights(Weights::of(&[HALF]), 1, 4)
            .ok();
        let first = listed.map(|list| (list.count, list.orders[0].symbol, list.orders[0].shares));
        assert!(rt; first == Some((1, 3, 39.0)));
        let mut orders = [Order::blank(); 2];
        assert!(rt; uist::diff_against_target_weights(b, &[HALF], &mut orders) == Ok(1));
        assert!(rt; orders.map(|o| (o.symbol, o.shares)) == [(3, 39.0), (0, 0.0)]);
    }

    #[test]
    fn reads_to_arrays(rt: HostRuntime) {
        let mut log = [Trade::blank(); 4];
        let b = holds_ten(&mut log);
        let positions = read::positions_on(b, 4);
        assert!(rt; positions.answer == Ok(1) && positions.list[..2] == [3, 0]);
        let holdings = read::holdings_on(b, 4);
        assert!(rt; holdings.answer == Ok(1) && holdings.list[0].quantity == 10.0);
        let pending = read::pending_on(b, 4);
        assert!(rt; pending.answer == Ok(1) && pending.list[0].quantity == 5.0);
        let quotes = read::quotes_on(b, 4);
        assert!(rt; quotes.answer == Ok(1) && quotes.list[0].bid == 101.0);
        let costs = read::costs_on(b, 4);
        assert!(rt; costs.answer == Ok(1) && costs.list[0].calc(2.0, 20.0) == 1.0);
        let walked = arrays::walk_on(b, &halved());
        assert!(rt; walked.answer == Ok(1) && walked.list[0].shares == 39.0);
    }

    // The texts are those that a line of a scenario is answered by: 10 held, 39 to buy, 102 paid for each.
    #[test]
    fn calls_of_lines(rt: HostRuntime) -> io::Result<()> {
        let mut log = [Trade::blank(); 4];
        let mut b = holds_ten(&mut log);
        let mut out = Vec::new(rt.alloc());
        for (line, text) in [
            (
                b"get_holdings 4".as_slice(),
                b" 1 3:4024000000000000\n".as_slice(),
            ),
            (
                b"walk 4 3:3fe0000000000000",
                b" 1 mb:3:4043800000000000:-\n",
            ),
            (b"cost_basis 3", b" 4059800000000000\n"),
        ] {
            out.clear();
            let call = call::of_line(line);
            let mut job = Job {
                rt: &rt,
                out: &mut out,
                line,
                call: &call,
            };
            if log_calls::needs_log(&call) {
                job.on_log(&mut b, &mut log)?;
            } else {
                job.on_lists(&mut b)?;
            }
            assert_eq!(rt; out.as_slice(), text);
        }
        Ok(())
    }
}
