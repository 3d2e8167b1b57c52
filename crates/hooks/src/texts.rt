// What passages and faults print.
ghost use Rattle.std.specs.Prelude.{Some};
ghost use Rattle.hooks.specs.Texts.{passage_text, hook_fault_text};

use crate::bank::HookFault;
use crate::passage::Passage;
use std::fmt;

impl fmt::Display for Passage {
    ghost output = { λ p. Some (passage_text p) };

    fn fmt<W: fmt::Write>(&self, f: &mut fmt::Formatter<W>) -> fmt::Result {
        write!(
            f,
            "hook {} of {} in and {} out",
            self.hook, self.input, self.output
        )
    }
}

impl fmt::Display for HookFault {
    ghost output = { λ fault. Some (hook_fault_text fault) };

    fn fmt<W: fmt::Write>(&self, f: &mut fmt::Formatter<W>) -> fmt::Result {
        match self {
            HookFault::Unknown => f.write_str("refused: no such hook"),
            HookFault::Denied(reason) => write!(f, "denied, with reason {reason}"),
            HookFault::Illegal => f.write_str("refused: the hook has no such number"),
        }
    }
}
