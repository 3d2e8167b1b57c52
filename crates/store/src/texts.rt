// What answers print.
ghost use Rattle.std.specs.Prelude.{Some};
ghost use Rattle.store.specs.Texts.{answer_text};

use crate::answer::Answer;
use std::fmt;

impl fmt::Display for Answer {
    ghost output = { λ a. Some (answer_text a) };

    fn fmt<W: fmt::Write>(&self, f: &mut fmt::Formatter<W>) -> fmt::Result {
        match self {
            Answer::Done => write!(f, "done"),
            Answer::Amount(n) => write!(f, "{n}"),
        }
    }
}
