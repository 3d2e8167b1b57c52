// What can be read of a vault.
ghost use Rattle.std.specs.Prelude.{◌≡◌, true, false, MatchResult};
ghost use Rattle.checks.specs.Tests.{is_currency};
ghost use Rattle.faults.specs.declared.cause.Cause.TheVariants.{Currency as no_currency};
ghost use Rattle.tokens.specs.Moves.{balance_answer};
ghost use Rattle.vault.specs.State.{state};

use crate::vault::Vault;
use book::{Book, Currency};
use faults::Cause;
use hooks::HookBank;
use tokens::{TokenBank, TokenFault};

impl<T: TokenBank, H: HookBank> Vault<T, H> {
    pub fn book(&self) -> &Book
        ensures { result.now ≡ (state T.TokenBank.meaning H.HookBank.meaning self.now).now.book }
    {
        self.store.book()
    }

    // A currency that the token bank has.
    pub fn currency(&self, number: u32) -> Result<Currency, Cause>
        ensures { MatchResult result
            (λ c. (c.number ≡ number) × (is_currency (state T.TokenBank.meaning H.HookBank.meaning self.now).now.tokens.count number ≡ true))
            (λ f. (f ≡ no_currency) × (is_currency (state T.TokenBank.meaning H.HookBank.meaning self.now).now.tokens.count number ≡ false)) }
    {
        self.store.currency(number)
    }

    // The vault's own balance.
    pub fn balance(&self, c: Currency) -> Result<u32, TokenFault>
        ensures { result ≡ balance_answer (state T.TokenBank.meaning H.HookBank.meaning self.now).now.tokens c.number 0 }
    {
        self.store.balance(c)
    }
}
