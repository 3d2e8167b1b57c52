// Exchanges with a pool: what each call does to the store, check by check.
#![tactic(auto)]

mod exchange;
mod quotes;
mod swaps;

pub use exchange::{Sides, in_and_out};
pub use swaps::{sell, swap, want};
