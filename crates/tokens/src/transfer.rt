// An amount of a currency that goes from one account to another, and what it is tested for first.
ghost use Rattle.std.specs.Prelude.{◌≡◌, ◌<◌, OnOk, ◌≢◌};
ghost use Rattle.tokens.specs.Moves.{numbered};

use crate::bank::TokenFault;

#[derive(Clone, Copy)]
pub struct Transfer {
    pub currency: u32,
    pub from: u32,
    pub to: u32,
    pub amount: u32,
}

impl Transfer {
    // Known numbers, two accounts and an amount.
    pub(crate) fn check(self, count: u32) -> Result<(), TokenFault>
        ensures answers { result ≡ numbered count self.currency self.from self.to self.amount }
        ensures passed { OnOk result ((self.currency < count) × (self.from < 16) × (self.to < 16) × (self.from ≢ self.to) × (0 < self.amount)) }
    {
        if self.currency >= count {
            return Err(TokenFault::UnknownCurrency);
        }
        if self.from >= 16 || self.to >= 16 {
            return Err(TokenFault::UnknownAccount);
        }
        if self.from == self.to {
            return Err(TokenFault::SameAccount);
        }
        if self.amount == 0 {
            return Err(TokenFault::NoAmount);
        }
        Ok(())
    }
}
