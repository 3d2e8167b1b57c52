// The constant sum curve.
ghost use Rattle.std.specs.Prelude.{◌≡◌};
ghost use Rattle.curves.specs.Answers.{answered};
ghost use Rattle.curves.specs.Single.{seen, sum, sum_trade};
ghost use Rattle.curves.specs.Singles.{sum_lawful};

use crate::bank::{CurveBank, CurveFault};
use crate::market::Market;

#[derive(Clone, Copy)]
pub struct Sum;

// A unit for a unit, whichever of the two is named.
fn traded(market: Market, n: u32) -> Result<u32, CurveFault>
    ensures { result ≡ answered (seen sum_trade market.curve market.direction market.x market.y n) }
{
    let sides = market.sides()?;
    if n > sides.output {
        return Err(CurveFault::NoAnswer);
    }
    market.with_room(n as u64)
}

impl CurveBank for Sum {
    ghost meaning = { λ _. sum };

    ghost lawful = { λ s. sum_lawful };

    fn count(&self) -> u32 {
        1
    }

    fn buy(&self, market: Market, a: u32) -> Result<u32, CurveFault> {
        traded(market, a)
    }

    fn price(&self, market: Market, b: u32) -> Result<u32, CurveFault> {
        traded(market, b)
    }
}
