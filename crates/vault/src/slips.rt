// Slips: values that nobody outside can make, copy or let go. They hold nothing; having one is what counts.
ghost use Rattle.std.specs.Prelude.{◌≡◌};
ghost use Rattle.vault.specs.declared.slips.NotClosed.TheVariants as not_closed;

use faults::VaultFault;

// Given out by `open`, taken in by `close` or `abandon`.
pub struct Session {
    pub(crate) slip: (),
}

// Given out by `frame`, taken in by `keep` or `drop`.
pub struct Frame {
    pub(crate) slip: (),
}

// A refusal with the slip given back.
pub struct Refused<S> {
    pub fault: VaultFault,
    pub slip: S,
}

// A session that was not closed: the call was refused and the slip is given back, or a debt was open and all is undone.
pub enum NotClosed {
    Refused(Refused<Session>),
    Undone(VaultFault),
}

// Written out, to state which refusal comes of it.
impl From<Refused<Session>> for NotClosed {
    ghost from_gives = { λ e r. r ≡ not_closed.Refused e };

    fn from(e: Refused<Session>) -> NotClosed {
        NotClosed::Refused(e)
    }
}
