// What the accounts hold together.
ghost use Rattle.std.specs.Prelude.{◌≡◌};
ghost use Rattle.tokens.specs.Moves.{circulating_answer};

use crate::bank::{TokenBank, TokenFault};

// The sum of a currency's sixteen balances, without its pot. A loop, since each is asked of the bank, which may refuse.
#[tactic(auto, unfolding(crate::specs::Meaning::sum_below))]
pub fn circulating<T: TokenBank>(bank: &T, currency: u32) -> Result<u64, TokenFault>
    ensures { result ≡ circulating_answer (T.TokenBank.meaning bank.now) currency }
{
    if currency >= bank.count() {
        return Err(TokenFault::UnknownCurrency);
    }
    let mut sum = 0;
    for account in 0..16u32 {
        let held = bank.balance(currency, account)?;
        sum += held as u64;
    }
    Ok(sum)
}
