// Cash in an account: credit, debit and forced debit move it in the account itself. The three functions
// over a cash balance stand beside these methods, since document 01 names both: a core by value, and
// after it a small account by `&mut`. They open an account of some cash and move it there.
#![tactic(auto)]

ghost use Rattle.std.specs.Fn.{FnOnceReturnsAtMut};
ghost use Rattle.std.specs.Prelude.{◌≡◌};
ghost use Rattle.account.specs.Account.{credit_of, debit_of, force_of, account_of, debit_number, no_number, cash_fault, Tells};

use market::fault::Fault;

// The Rust's four events, then those of the numbers 2 and 16. Each carries its amount.
#[derive(Clone, Copy)]
pub enum BrokerCashEvent {
    WithdrawSuccess(f64),
    WithdrawFailure(f64),
    DepositSuccess(f64),
    OperationFailure(f64),
    NotFinite(f64),
    Broken(f64),
}

impl BrokerCashEvent {
    // 2, 4, 12 and 16, as the event tells them.
    pub fn fault(self) -> Option<Fault>
        ensures { result ≡ cash_fault self }
    {
        match self {
            BrokerCashEvent::DepositSuccess(_) | BrokerCashEvent::WithdrawSuccess(_) => None,
            BrokerCashEvent::NotFinite(_) => Some(Fault::BadValue),
            BrokerCashEvent::OperationFailure(_) => Some(Fault::BrokerFailed),
            BrokerCashEvent::WithdrawFailure(_) => Some(Fault::WithdrawFailed),
            BrokerCashEvent::Broken(_) => Some(Fault::Unsound),
        }
    }
}

#[derive(Clone, Copy)]
pub struct Account {
    pub cash: f64,
}

// The cash after a move, and the event.
#[derive(Clone, Copy)]
pub struct Moved {
    pub cash: f64,
    pub event: BrokerCashEvent,
}

impl Account {
    #[tactic(auto, unfolding(crate::specs::Account::credit_of))]
    pub fn credit(&mut self, value: f64) -> BrokerCashEvent
        ensures { (result ≡ (credit_of self.old.cash value).event) × (self.new ≡ account_of (credit_of self.old.cash value)) × Tells result (no_number self.old.cash value) value }
    {
        self.cash = value + self.cash;
        BrokerCashEvent::DepositSuccess(value)
    }

    // Fails above cash.
    #[tactic(auto, unfolding(crate::specs::Account::debit_of, crate::specs::Account::force_of, crate::specs::Account::debit_number, market::specs::Faults::drawn))]
    pub fn debit(&mut self, value: f64) -> BrokerCashEvent
        ensures { (result ≡ (debit_of self.old.cash value).event) × (self.new ≡ account_of (debit_of self.old.cash value)) × Tells result (debit_number self.old.cash value) value }
    {
        if value > self.cash {
            return BrokerCashEvent::WithdrawFailure(value);
        }
        self.debit_force(value)
    }

    // Cash may fall below zero.
    #[tactic(auto, unfolding(crate::specs::Account::force_of))]
    pub fn debit_force(&mut self, value: f64) -> BrokerCashEvent
        ensures { (result ≡ (force_of self.old.cash value).event) × (self.new ≡ account_of (force_of self.old.cash value)) × Tells result (no_number self.old.cash value) value }
    {
        self.cash -= value;
        BrokerCashEvent::WithdrawSuccess(value)
    }
}

// Opens an account of this cash, and moves it there.
fn on_account<F: FnOnce(&mut Account) -> BrokerCashEvent>(cash: f64, by: F) -> Moved
    requires { F.IsAlwaysCallable by }
    ensures { FnOnceReturnsAtMut F.FnOnce by (record { cash = cash }) result.event (record { cash = result.cash }) }
{
    let mut account = Account { cash };
    let event = by(&mut account);
    Moved {
        cash: account.cash,
        event,
    }
}

pub fn credited(cash: f64, value: f64) -> Moved
    ensures { (result ≡ credit_of cash value) × Tells result.event (no_number cash value) value }
{
    on_account(cash, |account| account.credit(value))
}

pub fn debited(cash: f64, value: f64) -> Moved
    ensures { (result ≡ debit_of cash value) × Tells result.event (debit_number cash value) value }
{
    on_account(cash, |account| account.debit(value))
}

pub fn force_debited(cash: f64, value: f64) -> Moved
    ensures { (result ≡ force_of cash value) × Tells result.event (no_number cash value) value }
{
    on_account(cash, |account| account.debit_force(value))
}
