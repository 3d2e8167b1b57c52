// A fee on the input, over any bank of curves.
ghost use Rattle.std.specs.Prelude.{◌≡◌, ◌<◌, ◌≤◌, MatchResult};
ghost use Rattle.curves.specs.Fee.{fee};
ghost use Rattle.curves.specs.Fees.{fee_lawful};

use crate::bank::{CurveBank, CurveFault};
use crate::market::Market;
use amounts::{Rate, RateFault};

#[derive(Drop)]
pub struct Fee<C> {
    inner: C,
    rate: Rate,
}

impl<C: Drop> Fee<C> {
    // A rate above a thousand ten-thousandths is refused, and the bank let go.
    pub fn new(inner: C, rate: u32) -> Result<Fee<C>, RateFault>
        ensures { MatchResult result (λ f. (f.inner ≡ inner) × (f.rate.parts ≡ rate) × (rate ≤ 1000)) (λ _. 1000 < rate) }
    {
        let rate = Rate::new(rate)?;
        Ok(Fee { inner, rate })
    }
}

impl<C: CurveBank> CurveBank for Fee<C> {
    ghost meaning = { λ s. fee (C.CurveBank.meaning s.inner) s.rate.parts };

    ghost lawful = { λ s. fee_lawful _ s.rate.parts s.rate.within (C.CurveBank.lawful s.inner) };

    fn count(&self) -> u32 {
        self.inner.count()
    }

    fn buy(&self, market: Market, a: u32) -> Result<u32, CurveFault> {
        let input = market.with_room(a as u64)?;
        self.inner.buy(market, self.rate.left_of(input))
    }

    fn price(&self, market: Market, b: u32) -> Result<u32, CurveFault> {
        let net = self.inner.price(market, b)?;
        market.with_room(self.rate.gross_of(net))
    }
}
