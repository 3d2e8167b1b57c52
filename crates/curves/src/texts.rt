// What a market and a curve's fault print.
ghost use Rattle.std.specs.Prelude.{Some, codes};
ghost use Rattle.curves.specs.Texts.{market_text};

use crate::bank::CurveFault;
use crate::market::Market;
use std::fmt;

impl fmt::Display for Market {
    ghost output = { λ m. Some (market_text m) };

    fn fmt<W: fmt::Write>(&self, f: &mut fmt::Formatter<W>) -> fmt::Result {
        write!(
            f,
            "curve {} at {}, {}, direction {}",
            self.curve, self.x, self.y, self.direction
        )
    }
}

impl fmt::Display for CurveFault {
    ghost output = { λ _. Some (codes "no answer: the holdings, the curve or the direction do not allow it") };

    fn fmt<W: fmt::Write>(&self, f: &mut fmt::Formatter<W>) -> fmt::Result {
        f.write_str("no answer: the holdings, the curve or the direction do not allow it")
    }
}
