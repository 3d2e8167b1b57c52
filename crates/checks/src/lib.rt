// The tests that calls make, each with its refusal: a number that passed one is of a type of its own.
#![tactic(auto)]

mod deltas;
mod numbers;
mod pools;

pub use deltas::{exactly, lowered, raised};
pub use numbers::{
    account, account_or_vault, amount, amount_or_none, apart, currency, flag, increased, step,
    step_in,
};
pub use pools::{Made, free_pool, pool};
