// A curve in one direction, over a pool's holdings, and the tests that every curve makes.
ghost use Rattle.std.specs.Prelude.{◌≡◌, ◌+◌, ◌||◌, Err, Ok, Some, cond, nat_lt};
ghost use Rattle.amounts.specs.Rounding.{most};
ghost use Rattle.curves.specs.Answers.{answered};
ghost use Rattle.curves.specs.Meaning.{in_side, out_side};
ghost use Rattle.curves.specs.Single.{unless};
ghost use Rattle.curves.specs.declared.bank.CurveFault.TheVariants.{NoAnswer};

use crate::bank::CurveFault;
use amounts::MOST;

#[derive(Clone, Copy)]
pub struct Market {
    pub curve: u32,
    // a number, for which every other one than 0 and 1 has no answer
    pub direction: u32,
    pub x: u32,
    pub y: u32,
}

// The holdings of a pool as an exchange sees them.
#[derive(Clone, Copy)]
pub struct Sides {
    pub input: u32,
    pub output: u32,
}

impl Market {
    // The sides that the one curve of a bank sees: no answer for another curve or another direction than 0 and 1.
    pub(crate) fn sides(self) -> Result<Sides, CurveFault>
        ensures { result ≡ cond (nat_lt 0 self.curve || nat_lt 1 self.direction) (Err NoAnswer)
            (Ok (record { input = in_side self.direction self.x self.y; output = out_side self.direction self.x self.y })) }
    {
        if self.curve > 0 || self.direction > 1 {
            return Err(CurveFault::NoAnswer);
        }
        Ok(Sides {
            input: self.input_side(),
            output: self.output_side(),
        })
    }

    // The input, where the in side has room for it.
    pub(crate) fn with_room(self, input: u64) -> Result<u32, CurveFault>
        ensures { result ≡ answered (unless (nat_lt most (in_side self.direction self.x self.y + input)) (Some input)) }
    {
        if input > MOST as u64 || self.input_side() as u64 + input > MOST as u64 {
            return Err(CurveFault::NoAnswer);
        }
        Ok(input as u32)
    }

    fn input_side(self) -> u32
        ensures { result ≡ in_side self.direction self.x self.y }
    {
        if self.direction == 0 { self.x } else { self.y }
    }

    fn output_side(self) -> u32
        ensures { result ≡ out_side self.direction self.x self.y }
    {
        if self.direction == 0 { self.y } else { self.x }
    }
}
