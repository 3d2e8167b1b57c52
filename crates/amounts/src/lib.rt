// The numbers that every layer shares: the largest amount, rates, and what deposits and withdrawals come to.
#![tactic(auto)]

mod beside;
mod pair;
mod rate;
mod rates;
mod shares;

pub use beside::Beside;
pub use pair::{Place, pair_count, place_of};
pub use rate::Rate;
pub use rates::RateFault;
pub use shares::{deposit_cost, seeded, withdrawn};

// The largest amount, M.
pub const MOST: u32 = 2_147_483_647;

// Shares of a new pool that belong to nobody.
pub const LOCKED_SHARES: u32 = 1000;
