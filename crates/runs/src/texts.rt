// What a call with its reply prints.
ghost use Rattle.std.specs.Prelude.{Some};
ghost use Rattle.runs.specs.Texts.{line_text};

use crate::line::Line;
use std::fmt;

impl fmt::Display for Line {
    ghost output = { λ l. Some (line_text l) };

    fn fmt<W: fmt::Write>(&self, f: &mut fmt::Formatter<W>) -> fmt::Result {
        match self.reply {
            Ok(answer) => write!(f, "{} -> {answer}", self.call),
            Err(fault) => write!(f, "{} -> refused: {}", self.call, fault.report()),
        }
    }
}
