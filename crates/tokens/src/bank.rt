// The interface of a token bank: a fixed count of currencies, and sixteen accounts.
ghost use Rattle.std.specs.Prelude.{◌≡◌};
ghost use Rattle.tokens.specs.Meaning.{Tokens};
ghost use Rattle.tokens.specs.Moves.{Lawful, balance_answer, transfer_answer, after_transfer, unmove_answer, after_unmove};

use crate::transfer::Transfer;

#[derive(Clone, Copy)]
pub enum TokenFault {
    UnknownCurrency,
    UnknownAccount,
    SameAccount,
    NoAmount,
    Short,
}

pub trait TokenBank {
    ghost meaning: { Self → Tokens };

    fn count(&self) -> u32
        ensures { result ≡ (meaning self.now).count };

    fn balance(&self, currency: u32, account: u32) -> Result<u32, TokenFault>
        ensures { result ≡ balance_answer (meaning self.now) currency account };

    // Moves the amount, and answers what arrived.
    fn transfer(&mut self, t: Transfer) -> Result<u32, TokenFault>
        ensures answers { result ≡ transfer_answer (meaning self.old) t.currency t.from t.to t.amount }
        ensures leaves { meaning self.new ≡ after_transfer (meaning self.old) t.currency t.from t.to t.amount };

    // Takes back the same transfer.
    fn unmove(&mut self, t: Transfer) -> Result<(), TokenFault>
        ensures answers { result ≡ unmove_answer (meaning self.old) t.currency t.from t.to t.amount }
        ensures leaves { meaning self.new ≡ after_unmove (meaning self.old) t.currency t.from t.to t.amount };

    ghost lawful: { (s : Self) → Lawful (meaning s) };
}
