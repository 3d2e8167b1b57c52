// The records of the vault: pools, shares, claims, allowances, operators, deltas, the sync mark and the step count.
#![tactic(auto)]

mod cell;
mod ids;
mod new;
mod pools;
mod reads;
mod records;
mod writes;

pub use cell::Cell;
pub use ids::{Account, Currency, PoolId};
pub use records::{Allowed, Book, Mark, Pool, Pools, Terms};
