// The vault over any token and hook bank: sessions, frames, slips and all calls.
#![tactic(auto)]

mod call;
mod calls;
mod inside;
mod new;
mod phase;
mod phases;
mod reads;
mod sessions;
mod slips;
mod texts;
mod vault;

pub use call::Call;
pub use phase::Phase;
pub use slips::{Frame, NotClosed, Refused, Session};
pub use vault::Vault;
