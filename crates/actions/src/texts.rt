// What actions print.
ghost use Rattle.std.specs.Prelude.{Some};
ghost use Rattle.actions.specs.Texts.{action_text};

use crate::action::Action;
use std::fmt;

// The name, and the numbers in the order of the rulebook.
impl fmt::Display for Action {
    ghost output = { λ a. Some (action_text a) };

    fn fmt<W: fmt::Write>(&self, f: &mut fmt::Formatter<W>) -> fmt::Result {
        match self {
            Action::Sync { c } => write!(f, "sync {c}"),
            Action::Settle { who, c } => write!(f, "settle {who} {c}"),
            Action::Take { who, c, to, a } => write!(f, "take {who} {c} {to} {a}"),
            Action::Pay { who, c, to, a } => write!(f, "pay {who} {c} {to} {a}"),
            Action::Clear { who, c, a } => write!(f, "clear {who} {c} {a}"),
            Action::Mint { who, to, c, a } => write!(f, "mint {who} {to} {c} {a}"),
            Action::Burn { who, from, c, a } => write!(f, "burn {who} {from} {c} {a}"),
            Action::Hand {
                caller,
                from,
                to,
                c,
                a,
            } => write!(f, "hand {caller} {from} {to} {c} {a}"),
            Action::Allow {
                owner,
                spender,
                c,
                a,
            } => write!(f, "allow {owner} {spender} {c} {a}"),
            Action::Operator {
                owner,
                spender,
                flag,
            } => write!(f, "operator {owner} {spender} {flag}"),
        }
    }
}
