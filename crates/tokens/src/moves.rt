// Moves in a ledger, and back.
ghost use Rattle.std.specs.Prelude.{◌≡◌, ◌-◌, ◌≤◌};
ghost use Rattle.amounts.specs.Rounding.{part};
ghost use Rattle.tokens.specs.Ledgers.{ledger, Shift};
ghost use Rattle.tokens.specs.Meaning.{shifted};
ghost use Rattle.std.proofs.Common.{arith};
ghost use Rattle.tokens.specs.Laws.{lawful_from};

use crate::bank::{TokenBank, TokenFault};
use crate::ledger::Ledger;
use crate::transfer::Transfer;

impl Ledger {
    // What arrives of an amount.
    fn arriving(&self, amount: u32) -> u32
        ensures value { result ≡ amount - part amount self.now.rate.parts }
        ensures bound { result ≤ amount }
    {
        amount - self.rate.part_of(amount)
    }

    // One account falls, another rises, and the pot is a new one, so that there is as much of the currency as before.
    fn shift(&mut self, c: usize, payer: usize, fall: u32, payee: usize, rise: u32, pot: u64)
        requires { Shift self.old.count self.old.supplies c payer fall payee rise pot }
        ensures { ledger self.new.count self.new.supplies self.new.rate.parts
            ≡ shifted (ledger self.old.count self.old.supplies self.old.rate.parts) c payer fall payee rise pot }
    {
        let supply = &mut self.supplies[c];
        supply.held[payer] -= fall;
        supply.held[payee] += rise;
        supply.pot = pot as u32;
    }
}

impl TokenBank for Ledger {
    ghost meaning = { λ s. ledger s.count s.supplies s.rate.parts };

    ghost lawful = { λ s. lawful_from _ s.few (λ c a. omega arith) s.bounded };

    fn count(&self) -> u32 {
        self.count
    }

    fn balance(&self, currency: u32, account: u32) -> Result<u32, TokenFault> {
        if currency >= self.count {
            return Err(TokenFault::UnknownCurrency);
        }
        if account >= 16 {
            return Err(TokenFault::UnknownAccount);
        }
        Ok(self.supplies[currency as usize].held[account as usize])
    }

    fn transfer(&mut self, t: Transfer) -> Result<u32, TokenFault> {
        t.check(self.count)?;
        let c = t.currency as usize;
        if t.amount > self.supplies[c].held[t.from as usize] {
            return Err(TokenFault::Short);
        }
        let arrived = self.arriving(t.amount);
        let pot = self.supplies[c].pot as u64 + (t.amount - arrived) as u64;
        self.shift(c, t.from as usize, t.amount, t.to as usize, arrived, pot);
        Ok(arrived)
    }

    fn unmove(&mut self, t: Transfer) -> Result<(), TokenFault> {
        t.check(self.count)?;
        let c = t.currency as usize;
        let arrived = self.arriving(t.amount);
        let rest = t.amount - arrived;
        if arrived > self.supplies[c].held[t.to as usize] || rest > self.supplies[c].pot {
            return Err(TokenFault::Short);
        }
        let pot = (self.supplies[c].pot - rest) as u64;
        self.shift(c, t.to as usize, arrived, t.from as usize, t.amount, pot);
        Ok(())
    }
}
