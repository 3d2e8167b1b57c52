// The interface of a curve bank: a fixed count of curves, read only.
ghost use Rattle.std.specs.Prelude.{◌≡◌};
ghost use Rattle.curves.specs.Meaning.{Curves, Lawful};
ghost use Rattle.curves.specs.Answers.{answered};

use crate::market::Market;

// One case, and no Option: the vault passes it on as the cause of its own fault.
#[derive(Clone, Copy)]
pub enum CurveFault {
    NoAnswer,
}

pub trait CurveBank {
    ghost meaning: { Self → Curves };

    fn count(&self) -> u32
        ensures { result ≡ (meaning self.now).count };

    // What an input of `a` takes out of the holdings.
    fn buy(&self, market: Market, a: u32) -> Result<u32, CurveFault>
        ensures { result ≡ answered ((meaning self.now).buy market.curve market.direction market.x market.y a) };

    // The input for which `b` is taken out of the holdings.
    fn price(&self, market: Market, b: u32) -> Result<u32, CurveFault>
        ensures { result ≡ answered ((meaning self.now).price market.curve market.direction market.x market.y b) };

    ghost lawful: { (s : Self) → Lawful (meaning s) };
}
