// What a question and an answer print.
ghost use Rattle.std.specs.Prelude.{Some};
ghost use Rattle.figures.specs.Texts.{answer_text, question_text};

use crate::question::{Answer, Question};
use std::fmt;

impl fmt::Display for Question {
    ghost output = { λ q. Some (question_text q) };

    fn fmt<W: fmt::Write>(&self, f: &mut fmt::Formatter<W>) -> fmt::Result {
        match *self {
            Question::Seed { a, b } => write!(f, "seed {a} and {b}"),
            Question::Buy { market, a } => write!(f, "{market}: buy for {a}"),
            Question::Price { market, b } => write!(f, "{market}: price of {b}"),
            Question::Add {
                shares,
                x,
                y,
                total,
            } => write!(f, "add {shares} shares to {total} at {x}, {y}"),
            Question::Remove {
                shares,
                x,
                y,
                total,
            } => write!(f, "remove {shares} shares of {total} at {x}, {y}"),
        }
    }
}

impl fmt::Display for Answer {
    ghost output = { λ a. Some (answer_text a) };

    fn fmt<W: fmt::Write>(&self, f: &mut fmt::Formatter<W>) -> fmt::Result {
        match *self {
            Answer::One(n) => write!(f, "{n}"),
            Answer::Two(m, n) => write!(f, "{m} and {n}"),
        }
    }
}
