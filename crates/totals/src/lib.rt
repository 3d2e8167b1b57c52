// What a book holds of a currency, all records and rows together, and how many debts are open.
#![tactic(auto)]

mod debts;
mod sums;

pub use debts::{deltas_in, open_deltas};
pub use sums::{claims_in, pools_in};
