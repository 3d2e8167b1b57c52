// Hook banks: what a bank of hooks answers, three ready-made hooks, and two banks side by side.
#![tactic(auto)]

mod bank;
mod beside;
mod hook;
mod passage;
mod ready;
mod rule;
mod texts;

pub use amounts::Beside;
pub use bank::{HookBank, HookFault};
pub use hook::Hook;
pub use passage::Passage;
pub use ready::HookSetupFault;
