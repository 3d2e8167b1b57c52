// Questions to the share formulas and to curves, answered by the code that the vault runs.
ghost use Rattle.std.specs.Prelude.{◌≡◌};
ghost use Rattle.figures.specs.Figures.{answer_of};

use amounts::{deposit_cost, seeded, withdrawn};
use curves::{CurveBank, Market};

#[derive(Clone, Copy)]
pub enum Question {
    Seed {
        a: u32,
        b: u32,
    },
    Buy {
        market: Market,
        a: u32,
    },
    Price {
        market: Market,
        b: u32,
    },
    // shares, holdings and total: four numbers that no function takes together
    Add {
        shares: u32,
        x: u32,
        y: u32,
        total: u32,
    },
    Remove {
        shares: u32,
        x: u32,
        y: u32,
        total: u32,
    },
}

#[derive(Clone, Copy, PartialEq)]
pub enum Answer {
    One(u32),
    Two(u64, u64),
}

impl Question {
    // What the code answers over a bank of curves, or None where it refuses.
    pub fn answer<C: CurveBank>(self, bank: &C) -> Option<Answer>
        ensures { result ≡ answer_of (C.CurveBank.meaning bank.now) self }
    {
        match self {
            Question::Seed { a, b } => seeded(a, b).map(Answer::One),
            Question::Buy { market, a } => bank.buy(market, a).ok().map(Answer::One),
            Question::Price { market, b } => bank.price(market, b).ok().map(Answer::One),
            // A pool without shares sells and redeems none.
            Question::Add { total: 0, .. } | Question::Remove { total: 0, .. } => None,
            Question::Add {
                shares,
                x,
                y,
                total,
            } => Some(Answer::Two(
                deposit_cost(shares, x, total),
                deposit_cost(shares, y, total),
            )),
            Question::Remove {
                shares,
                x,
                y,
                total,
            } => Some(Answer::Two(withdrawn(shares, x, total), withdrawn(shares, y, total))),
        }
    }
}
