// Why the vault refuses a call, with the place where it happened.
#![tactic(auto)]

mod cause;
mod report;
mod texts;

pub use cause::{Cause, VaultFault};
pub use report::{Layer, Report};
