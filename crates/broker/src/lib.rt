// The Uist v1 broker by value: cash, holdings and pending quantities over an exchange.
#![tactic(auto)]

pub mod build;
pub mod cash;
pub mod check;
pub mod lender;
pub mod liquidate;
pub mod read;
pub mod send;
pub mod state;
pub mod update;
pub mod walk;
