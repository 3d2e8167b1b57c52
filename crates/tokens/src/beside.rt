// Two token banks side by side.
ghost use Rattle.tokens.specs.Beside.{beside};
ghost use Rattle.tokens.specs.Pairs.{beside_lawful};

use crate::bank::{TokenBank, TokenFault};
use crate::transfer::Transfer;
use amounts::{Beside, Place, pair_count, place_of};

// Each operation finds its bank by a match: a closure for each bank would say the same two calls, and a contract of each besides.
#[tactic(auto, using(crate::specs::Pairs::transfers_as_second, crate::specs::Pairs::unmoves_as_second))]
impl<First: TokenBank, Second: TokenBank> TokenBank for Beside<First, Second> {
    ghost meaning = { λ s. beside (First.TokenBank.meaning s.first) (Second.TokenBank.meaning s.second) };

    ghost lawful = { λ s. beside_lawful _ _ (First.TokenBank.lawful s.first) (Second.TokenBank.lawful s.second) };

    fn count(&self) -> u32 {
        pair_count(self.first.count(), self.second.count(), 8)
    }

    fn balance(&self, currency: u32, account: u32) -> Result<u32, TokenFault> {
        match place_of(currency, self.first.count(), 8).ok_or(TokenFault::UnknownCurrency)? {
            Place::First(c) => self.first.balance(c, account),
            Place::Second(c) => self.second.balance(c, account),
        }
    }

    fn transfer(&mut self, t: Transfer) -> Result<u32, TokenFault> {
        match place_of(t.currency, self.first.count(), 8).ok_or(TokenFault::UnknownCurrency)? {
            Place::First(c) => self.first.transfer(Transfer { currency: c, ..t }),
            Place::Second(c) => self.second.transfer(Transfer { currency: c, ..t }),
        }
    }

    fn unmove(&mut self, t: Transfer) -> Result<(), TokenFault> {
        match place_of(t.currency, self.first.count(), 8).ok_or(TokenFault::UnknownCurrency)? {
            Place::First(c) => self.first.unmove(Transfer { currency: c, ..t }),
            Place::Second(c) => self.second.unmove(Transfer { currency: c, ..t }),
        }
    }
}
