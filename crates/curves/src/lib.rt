// Curve banks: what a pool sells for an input, and which input an output costs.
#![tactic(auto)]

mod bank;
mod beside;
mod fee;
mod market;
mod product;
mod sum;
mod texts;

pub use amounts::Beside;
pub use bank::{CurveBank, CurveFault};
pub use fee::Fee;
pub use market::Market;
pub use product::Product;
pub use sum::Sum;
