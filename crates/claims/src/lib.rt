// Calls on claims: what each does to the store, check by check.
#![tactic(auto)]

mod hands;
mod mints;
mod rights;

pub use hands::{allow, hand};
pub use mints::{burn, mint};
