// Tests of single numbers. No `TryFrom`: an account has two tests, a currency's needs the bank's count, and a flag is a bool.
ghost use Rattle.std.specs.Prelude.{◌≡◌, ◌+◌, ◌≤◌, true, false, not, ◌||◌, if◌then◌else◌, MatchResult, ◌==◌};
ghost use Rattle.checks.specs.Tests.{is_account, is_account_or_vault, is_currency, is_amount, is_amount_or_none, is_flag, are_apart, has_step, has_room};
ghost use Rattle.faults.specs.declared.cause.Cause.TheVariants.{Account as no_account, Currency as no_currency, Amount as no_amount, Choice as no_choice, SameAccount as one_account, Steps as no_step, Full as full};

use amounts::MOST;
use book::{Account, Currency};
use faults::Cause;

pub fn account(number: u32) -> Result<Account, Cause>
    ensures { MatchResult result (λ a. (a.number ≡ number) × (is_account number ≡ true)) (λ f. (f ≡ no_account) × (is_account number ≡ false)) }
{
    if number == 0 {
        return Err(Cause::Account);
    }
    account_or_vault(number)
}

// The vault's own account 0 as well.
pub fn account_or_vault(number: u32) -> Result<Account, Cause>
    ensures { MatchResult result (λ a. (a.number ≡ number) × (is_account_or_vault number ≡ true)) (λ f. (f ≡ no_account) × (is_account_or_vault number ≡ false)) }
{
    if number >= 16 {
        return Err(Cause::Account);
    }
    Ok(Account { number })
}

// A currency of a bank that has so many.
pub fn currency(count: u32, number: u32) -> Result<Currency, Cause>
    requires { count ≤ 8 }
    ensures { MatchResult result (λ c. (c.number ≡ number) × (is_currency count number ≡ true)) (λ f. (f ≡ no_currency) × (is_currency count number ≡ false)) }
{
    if number >= count {
        return Err(Cause::Currency);
    }
    Ok(Currency { number })
}

pub fn amount(a: u32) -> Result<(), Cause>
    ensures { MatchResult result (λ _. is_amount a ≡ true) (λ f. (f ≡ no_amount) × (is_amount a ≡ false)) }
{
    if a == 0 {
        return Err(Cause::Amount);
    }
    amount_or_none(a)
}

pub fn amount_or_none(a: u32) -> Result<(), Cause>
    ensures { MatchResult result (λ _. is_amount_or_none a ≡ true) (λ f. (f ≡ no_amount) × (is_amount_or_none a ≡ false)) }
{
    if a > MOST {
        return Err(Cause::Amount);
    }
    Ok(())
}

pub fn flag(n: u32) -> Result<bool, Cause>
    ensures { MatchResult result (λ b. (b ≡ (n == 1)) × (is_flag n ≡ true)) (λ f. (f ≡ no_choice) × (is_flag n ≡ false)) }
{
    match n {
        0 => Ok(false),
        1 => Ok(true),
        _ => Err(Cause::Choice),
    }
}

pub fn apart(a: Account, b: Account) -> Result<(), Cause>
    ensures { MatchResult result (λ _. are_apart a.number b.number ≡ true) (λ f. (f ≡ one_account) × (are_apart a.number b.number ≡ false)) }
{
    if a == b {
        return Err(Cause::SameAccount);
    }
    Ok(())
}

// The step count after one step more.
pub fn step(steps: u32) -> Result<u32, Cause>
    ensures { MatchResult result (λ n. (n ≡ steps + 1) × (has_step steps ≡ true)) (λ f. (f ≡ no_step) × (has_step steps ≡ false)) }
{
    if steps >= 64 {
        return Err(Cause::Steps);
    }
    Ok(steps + 1)
}

// The step count after a call that is a step only in a session.
pub fn step_in(session: bool, steps: u32) -> Result<u32, Cause>
    ensures { MatchResult result (λ n. (n ≡ (if session then steps + 1 else steps)) × ((not session || has_step steps) ≡ true)) (λ f. (f ≡ no_step) × ((not session || has_step steps) ≡ false)) }
{
    if session { step(steps) } else { Ok(steps) }
}

// A claim or a holding after it rose, where it has room.
pub fn increased(n: u32, by: u64) -> Result<u32, Cause>
    ensures { MatchResult result (λ m. (m ≡ n + by) × (has_room (n + by) ≡ true)) (λ f. (f ≡ full) × (has_room (n + by) ≡ false)) }
{
    let sum = n as u128 + by as u128;
    if sum > MOST as u128 {
        return Err(Cause::Full);
    }
    Ok(sum as u32)
}
