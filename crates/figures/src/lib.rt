// Worked figures of the rules: questions with the answers that the definitions give.
#![tactic(auto)]

mod bank;
mod question;
mod table;
mod texts;

pub use bank::{ExampleCurves, example_curves};
pub use question::{Answer, Question};
pub use table::{Figure, figures};
