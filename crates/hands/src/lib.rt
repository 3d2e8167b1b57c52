// Operators: what the call that names them does to the store, check by check.
#![tactic(auto)]

mod hands;

pub use hands::operator;
