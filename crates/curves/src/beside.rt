// Two banks of curves side by side.
ghost use Rattle.curves.specs.Beside.{beside};
ghost use Rattle.curves.specs.Pairs.{beside_lawful};

use crate::bank::{CurveBank, CurveFault};
use crate::market::Market;
use amounts::{Beside, Place, pair_count, place_of};

// Each operation finds its bank by a match: a closure for each bank would say the same two calls, and a contract of each besides.
impl<First: CurveBank, Second: CurveBank> CurveBank for Beside<First, Second> {
    ghost meaning = { λ s. beside (First.CurveBank.meaning s.first) (Second.CurveBank.meaning s.second) };

    ghost lawful = { λ s. beside_lawful _ _ (First.CurveBank.lawful s.first) (Second.CurveBank.lawful s.second) };

    fn count(&self) -> u32 {
        pair_count(self.first.count(), self.second.count(), 8)
    }

    fn buy(&self, market: Market, a: u32) -> Result<u32, CurveFault> {
        match place_of(market.curve, self.first.count(), 8).ok_or(CurveFault::NoAnswer)? {
            Place::First(c) => self.first.buy(Market { curve: c, ..market }, a),
            Place::Second(c) => self.second.buy(Market { curve: c, ..market }, a),
        }
    }

    fn price(&self, market: Market, b: u32) -> Result<u32, CurveFault> {
        match place_of(market.curve, self.first.count(), 8).ok_or(CurveFault::NoAnswer)? {
            Place::First(c) => self.first.price(Market { curve: c, ..market }, b),
            Place::Second(c) => self.second.price(Market { curve: c, ..market }, b),
        }
    }
}
