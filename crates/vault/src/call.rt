// All calls of a vault.
use actions::Action;

#[derive(Clone, Copy)]
pub enum Call {
    Open,
    Close,
    Abandon,
    Frame,
    Keep,
    Drop,
    Act(Action),
}
