// Token banks: who holds how much of each currency, and what arrives of an amount that is moved.
#![tactic(auto)]

mod bank;
mod beside;
mod ledger;
mod moves;
mod opening;
mod report;
mod supply;
mod texts;
mod transfer;

pub use amounts::Beside;
pub use bank::{TokenBank, TokenFault};
pub use ledger::Ledger;
pub use opening::OpeningFault;
pub use report::circulating;
pub use transfer::Transfer;
