// The fourteen figures.
ghost use Rattle.std.specs.Prelude.{◌≡◌};
ghost use Rattle.figures.specs.Holds.{AllHold};
ghost use Rattle.figures.specs.Worked.{worked};

use crate::question::{Answer, Question};
use curves::Market;

const PRODUCT: Market = Market {
    curve: 0,
    direction: 0,
    x: 4000,
    y: 9000,
};

const SUM: Market = Market {
    curve: 1,
    direction: 0,
    x: 2147483637,
    y: 100,
};

const UNDER_FEE: Market = Market {
    curve: 2,
    ..PRODUCT
};

#[derive(Clone, Copy)]
pub struct Figure {
    pub question: Question,
    pub answer: Option<Answer>,
}

// Each answer is the one that the definitions give over the example curves: the check opens the root and computes them.
#[tactic(auto, unfolding(amounts::specs::Shares::root, amounts::specs::Shares::root_below))]
pub fn figures() -> [Figure; 14]
    ensures { (result ≡ worked) × (AllHold result) }
{
    [
        Figure {
            question: Question::Seed { a: 4000, b: 9000 },
            answer: Some(Answer::One(5000)),
        },
        Figure {
            question: Question::Seed { a: 1001, b: 1001 },
            answer: Some(Answer::One(1)),
        },
        Figure {
            question: Question::Seed { a: 1000, b: 1000 },
            answer: None,
        },
        Figure {
            question: Question::Buy {
                market: PRODUCT,
                a: 100,
            },
            answer: Some(Answer::One(219)),
        },
        Figure {
            question: Question::Buy {
                market: Market {
                    direction: 1,
                    ..PRODUCT
                },
                a: 1,
            },
            answer: Some(Answer::One(0)),
        },
        Figure {
            question: Question::Price {
                market: PRODUCT,
                b: 219,
            },
            answer: Some(Answer::One(100)),
        },
        Figure {
            question: Question::Price {
                market: PRODUCT,
                b: 1000,
            },
            answer: Some(Answer::One(501)),
        },
        Figure {
            question: Question::Buy {
                market: UNDER_FEE,
                a: 100,
            },
            answer: Some(Answer::One(217)),
        },
        Figure {
            question: Question::Buy {
                market: UNDER_FEE,
                a: 1,
            },
            answer: Some(Answer::One(0)),
        },
        Figure {
            question: Question::Price {
                market: UNDER_FEE,
                b: 217,
            },
            answer: Some(Answer::One(100)),
        },
        Figure {
            question: Question::Buy { market: SUM, a: 10 },
            answer: Some(Answer::One(10)),
        },
        Figure {
            question: Question::Buy { market: SUM, a: 11 },
            answer: None,
        },
        Figure {
            question: Question::Add {
                shares: 600,
                x: 4100,
                y: 8781,
                total: 6000,
            },
            answer: Some(Answer::Two(410, 879)),
        },
        Figure {
            question: Question::Remove {
                shares: 600,
                x: 4510,
                y: 9660,
                total: 6600,
            },
            answer: Some(Answer::Two(410, 878)),
        },
    ]
}
