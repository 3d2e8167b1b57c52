// Runs of calls on a new vault, and the law that holds of every one.
#![tactic(auto)]

mod desk;
mod ends;
mod line;
mod piles;
mod playing;
mod plays;
mod slips;
mod texts;
mod turns;

pub use desk::Desk;
pub use line::Line;
pub use playing::run;
pub use slips::{Frames, Slips};
