// What a rate takes of an amount, what it leaves, and which amount it leaves a given one of.
ghost use Rattle.std.specs.Prelude.{◌≡◌, ◌*◌, ◌<◌, ◌≤◌, MatchResult};
ghost use Rattle.amounts.specs.Rounding.{down, part, left, grossed};

use crate::rate::Rate;

// A rate is at most a thousand ten-thousandths. One case, and no Option: what is made with a rate passes it on as a fault.
#[derive(Clone, Copy, Debug)]
pub enum RateFault {
    AboveThousand,
}

// So many ten-thousandths of an amount, rounded down.
fn scaled(amount: u32, parts: u32) -> u32
    requires { parts ≤ 10000 }
    ensures value { result ≡ down (amount * parts) 10000 }
    ensures bound { result ≤ amount }
{
    (amount as u64 * parts as u64 / 10000) as u32
}

impl Rate {
    pub fn new(parts: u32) -> Result<Rate, RateFault>
        ensures { MatchResult result (λ rate. (rate.parts ≡ parts) × (parts ≤ 1000)) (λ _. 1000 < parts) }
    {
        if parts > 1000 {
            return Err(RateFault::AboveThousand);
        }
        Ok(Rate { parts })
    }

    // The part that the rate takes, rounded down.
    pub fn part_of(self, amount: u32) -> u32
        ensures value { result ≡ part amount self.parts }
        ensures bound { result ≤ amount }
    {
        scaled(amount, self.parts)
    }

    // What the rate leaves, rounded down.
    pub fn left_of(self, amount: u32) -> u32
        ensures { result ≡ left amount self.parts }
    {
        scaled(amount, 10000 - self.parts)
    }

    // The amount of which the rate leaves `net`, rounded up.
    pub fn gross_of(self, net: u32) -> u64
        ensures { result ≡ grossed net self.parts }
    {
        let kept = (10000 - self.parts) as u64;
        (net as u64 * 10000 + (kept - 1)) / kept
    }
}
