// The broker's calls on lent lists, and the vendor's correction, for a caller whose lists are arrays:
// each lends the first rows of its arrays.
#![tactic(auto)]

ghost use Rattle.std.specs.Prelude.{◌≡◌, IsSome};
ghost use Rattle.market.specs.Faults.{ok_unless};
ghost use Rattle.std.specs.Fn.{FnOnceReturnsAtMut};
ghost use Rattle.broker.specs.Lent.{build_for};
ghost use Rattle.lent.specs.Answers.{AnswersCheck, AnswersSend, AnswersWalk, AnswersUpdate};
ghost use Rattle.arrays.specs.Arrays.{tradable_in, fetched_in, weights_in, orders_in, lent_of, past_lent, blank_events, blank_orders};

pub mod clock;
pub mod correct;
pub mod read;

use broker::state::UistBroker;
use costs::TradeCosts;
use lent::uist;
use lent::uist::{CheckAnswer, UpdateAnswer};
use market::fault::{After, Fault};
use market::order::{Order, OrderEvent};
use market::quote::Quote;
use market::trade::Trade;
use market::weight::Weight;
use std::time::CpuClock;

// An answer, with the list that was lent. Here and below a pair would be no plainer: its two parts would
// have no names.
#[derive(Clone, Copy)]
pub struct Lent<A, L> {
    pub answer: A,
    pub list: L,
}

// An answer, and the microseconds of processor time that the call took.
#[derive(Clone, Copy)]
pub struct Timed<A> {
    pub answer: A,
    pub micros: u64,
}

// The rows of a line's tables and weights, and the length of the lent list for events or orders. A
// line's lists are read into arrays of fixed size, so that a run needs no heap for them, and each count
// says how many rows were read.
#[derive(Clone, Copy)]
pub struct Lists {
    pub tradable: [Quote; 512],
    pub first: usize,
    pub fetched: [Quote; 512],
    pub second: usize,
    pub weights: [Weight; 512],
    pub third: usize,
    pub room: usize,
}

// Orders, and the length of the lent list for their events. They are read into an array of fixed size,
// so that a run needs no heap for them, and the count says how many were read.
#[derive(Clone, Copy)]
pub struct Orders {
    pub list: [Order; 1024],
    pub count: usize,
    pub room: usize,
}

// (Why this and the two like it are functions stands at `lend`.)
#[tactic(auto, unfolding(crate::specs::Arrays::blank_events))]
pub fn no_events() -> [OrderEvent; 1024]
    ensures { result ≡ blank_events }
{
    let order = Order::blank();
    let blank = OrderEvent { order, fault: None };
    [blank; 1024]
}

#[tactic(auto, unfolding(crate::specs::Arrays::blank_orders))]
pub fn no_orders() -> [Order; 1024]
    ensures { result ≡ blank_orders }
{
    [Order::blank(); 1024]
}

// Lends the first `room` places of an array to a call, and answers what it answers. Where a call makes
// the blank entry, a function makes the array, for no proof of the callers was found without it.
fn lend<T: Copy, A, F: FnOnce(&mut [T]) -> A>(list: &mut [T; 1024], room: usize, call: F) -> A
    requires { F.IsAlwaysCallable call }
    ensures lent { FnOnceReturnsAtMut F.FnOnce call (lent_of room list.old) result (lent_of room list.new) }
    ensures past { past_lent room list.new ≡ past_lent room list.old }
{
    call(&mut list[..room.min(1024)])
}

// A fresh broker for the lent log.
pub fn build_on(costs: TradeCosts, lot: u32, x: &Lists, log: &[Trade]) -> Result<UistBroker, Fault>
    ensures { result ≡ build_for costs lot (tradable_in x.now) log.now }
{
    uist::build(costs, lot, &x.tradable[..x.first.min(512)], log)
}

// The same in the place of another broker, which stays where this is refused.
pub fn build_in_place_on(
    b: &mut UistBroker,
    costs: TradeCosts,
    lot: u32,
    x: &Lists,
    log: &[Trade],
) -> Option<Fault>
    ensures built { build_for costs lot (tradable_in x.now) log.now ≡ ok_unless result b.new }
    ensures kept { IsSome result → b.new ≡ b.old }
{
    uist::build_in_place(b, costs, lot, &x.tradable[..x.first.min(512)], log)
}

// A check; its time is left free.
pub fn check_on(
    rt: &impl CpuClock,
    b: UistBroker,
    x: &Lists,
    log: &mut [Trade],
) -> Timed<CheckAnswer>
    ensures { AnswersCheck b (tradable_in x.now) (fetched_in x.now) log.old result.answer log.new }
{
    let k = x.first.min(512);
    let l = x.second.min(512);
    let from = clock::now(rt);
    let answer = uist::check(b, &x.tradable[..k], &x.fetched[..l], log);
    let micros = clock::since(rt, from);
    Timed { answer, micros }
}

// Sends a list of orders; past the entries lent the array of events stays blank.
pub fn send_on(b: UistBroker, x: &Orders) -> Lent<After<UistBroker>, [OrderEvent; 1024]>
    ensures { AnswersSend b (orders_in x.now) (lent_of x.now.room blank_events) result.answer (lent_of x.now.room result.list) × (past_lent x.now.room result.list ≡ past_lent x.now.room blank_events) }
{
    let orders = &x.list[..x.count.min(1024)];
    let mut list = no_events();
    let answer = lend(&mut list, x.room, |events| {
        uist::send_orders(b, orders, events)
    });
    Lent { answer, list }
}

// The walk alone; past the entries lent the array of orders stays blank.
pub fn walk_on_ref(b: &UistBroker, x: &Lists) -> Lent<Result<usize, Fault>, [Order; 1024]>
    ensures { AnswersWalk b.now (weights_in x.now) (lent_of x.now.room blank_orders) result.answer (lent_of x.now.room result.list) × (past_lent x.now.room result.list ≡ past_lent x.now.room blank_orders) }
{
    let weights = &x.weights[..x.third.min(512)];
    let mut list = no_orders();
    let answer = lend(&mut list, x.room, |orders| {
        uist::diff_against_target_weights_ref(b, weights, orders)
    });
    Lent { answer, list }
}

// The same, by value.
pub fn walk_on(b: UistBroker, x: &Lists) -> Lent<Result<usize, Fault>, [Order; 1024]>
    ensures { AnswersWalk b (weights_in x.now) (lent_of x.now.room blank_orders) result.answer (lent_of x.now.room result.list) × (past_lent x.now.room result.list ≡ past_lent x.now.room blank_orders) }
{
    walk_on_ref(&b, x)
}

// An update; its time is left free, and past the entries lent the array of events stays blank. It
// lends the array by itself: of a log that a closure changes, a proof by `lend` knows nothing.
pub fn update_on(
    rt: &impl CpuClock,
    b: UistBroker,
    x: &Lists,
    log: &mut [Trade],
) -> Timed<Lent<UpdateAnswer, [OrderEvent; 1024]>>
    ensures { AnswersUpdate b (tradable_in x.now) (fetched_in x.now) (weights_in x.now) (lent_of x.now.room blank_events) log.old result.answer.answer (lent_of x.now.room result.answer.list) log.new × (past_lent x.now.room result.answer.list ≡ past_lent x.now.room blank_events) }
{
    let k = x.first.min(512);
    let l = x.second.min(512);
    let m = x.third.min(512);
    let r = x.room.min(1024);
    let mut list = no_events();
    let from = clock::now(rt);
    let answer = uist::update(
        b,
        &x.tradable[..k],
        &x.fetched[..l],
        &x.weights[..m],
        &mut list[..r],
        log,
    );
    let micros = clock::since(rt, from);
    Timed {
        answer: Lent { answer, list },
        micros,
    }
}
