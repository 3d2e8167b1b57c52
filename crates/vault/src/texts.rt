// What calls print.
ghost use Rattle.std.specs.Prelude.{Some};
ghost use Rattle.vault.specs.Texts.{call_text};

use crate::call::Call;
use std::fmt;

impl fmt::Display for Call {
    ghost output = { λ c. Some (call_text c) };

    fn fmt<W: fmt::Write>(&self, f: &mut fmt::Formatter<W>) -> fmt::Result {
        match self {
            Call::Open => write!(f, "open"),
            Call::Close => write!(f, "close"),
            Call::Abandon => write!(f, "abandon"),
            Call::Frame => write!(f, "frame"),
            Call::Keep => write!(f, "keep"),
            Call::Drop => write!(f, "drop"),
            Call::Act(action) => write!(f, "{action}"),
        }
    }
}
