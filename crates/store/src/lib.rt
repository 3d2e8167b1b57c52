// The book and the banks with a journal: every recorded change can be undone, and what earlier marks restore stays.
#![tactic(auto)]

mod answer;
mod changes;
mod entry;
mod new;
mod state;
mod texts;
mod undo;

pub use answer::Answer;
pub use entry::Entry;
pub use state::{Held, Store};
