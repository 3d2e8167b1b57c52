// Pools and their shares: what each call does to the store, check by check.
#![tactic(auto)]

mod change;
mod deposits;
mod judging;
mod listing;

pub use deposits::{add, remove, seed};
pub use listing::pool;
