// Tokens in and out, and the debts that they make and settle: what each call does to the store, check by check.
#![tactic(auto)]

mod debts;
mod moves;

pub use debts::{clear, settle, sync};
pub use moves::{pay, take};
