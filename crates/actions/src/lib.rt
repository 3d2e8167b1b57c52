// The calls on records and banks as values, and what each one does.
#![tactic(auto)]

mod action;
mod dispatch;
mod texts;

pub use action::Action;
pub use dispatch::act;
