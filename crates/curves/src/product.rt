// The constant product curve.
ghost use Rattle.std.specs.Prelude.{◌≡◌, ◌+◌, ◌*◌, ◌<◌};
ghost use Rattle.amounts.specs.Rounding.{down};
ghost use Rattle.curves.specs.Single.{product};
ghost use Rattle.curves.specs.Singles.{product_lawful};

use crate::bank::{CurveBank, CurveFault};
use crate::market::Market;

#[derive(Clone, Copy)]
pub struct Product;

// What an input takes out, rounded down: the new product is no lower.
fn output_for(held: u32, other: u32, input: u32) -> u32
    requires { 0 < held }
    ensures { result ≡ down (other * input) (held + input) }
{
    (other as u64 * input as u64 / (held as u64 + input as u64)) as u32
}

impl CurveBank for Product {
    ghost meaning = { λ _. product };

    ghost lawful = { λ s. product_lawful };

    fn count(&self) -> u32 {
        1
    }

    fn buy(&self, market: Market, a: u32) -> Result<u32, CurveFault> {
        let sides = market.sides()?;
        if sides.input == 0 || sides.output == 0 {
            return Err(CurveFault::NoAnswer);
        }
        let input = market.with_room(a as u64)?;
        Ok(output_for(sides.input, sides.output, input))
    }

    fn price(&self, market: Market, b: u32) -> Result<u32, CurveFault> {
        let sides = market.sides()?;
        if sides.input == 0 || b >= sides.output {
            return Err(CurveFault::NoAnswer);
        }
        let input = sides.input as u64 * b as u64 / (sides.output - b) as u64 + 1;
        market.with_room(input)
    }
}
