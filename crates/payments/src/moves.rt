// Tokens that leave the vault, and a trader's own tokens.
ghost use Rattle.std.specs.Prelude.{◌≡◌, ◌≤◌, true, false, MatchResult, nat_le};
ghost use Rattle.payments.specs.Payments.{take as take_outcome, pay as pay_outcome};
ghost use Rattle.tokens.specs.declared.bank.TokenFault.TheVariants.{Short as short};
ghost use Rattle.store.specs.Outcome.{Meets};
ghost use Rattle.store.specs.Room.{HasRoom};
ghost use Rattle.store.specs.Saved.{world};

use book::Cell;
use checks::{account, account_or_vault, amount, apart, lowered, step, step_in};
use faults::VaultFault;
use hooks::HookBank;
use store::{Answer, Store};
use tokens::{TokenBank, TokenFault, Transfer};

// The bank's refusal of a move, found before it is made.
fn covered(balance: u32, a: u32) -> Result<(), TokenFault>
    ensures { MatchResult result (λ _. nat_le a balance ≡ true) (λ f. (f ≡ short) × (nat_le a balance ≡ false)) }
{
    if balance < a {
        return Err(TokenFault::Short);
    }
    Ok(())
}

pub fn take<T: TokenBank, H: HookBank>(
    store: &mut Store<T, H>,
    who: u32,
    c: u32,
    to: u32,
    a: u32,
) -> Result<Answer, VaultFault>
    requires { HasRoom store.old }
    ensures { Meets T.TokenBank.meaning H.HookBank.meaning (take_outcome (world T.TokenBank.meaning H.HookBank.meaning store.old.held) who c to a) store.old store.new result }
{
    let who = account(who)?;
    let to = account(to)?;
    let c = store.currency(c)?;
    amount(a)?;
    let steps = step(store.book().steps)?;
    covered(store.balance(c)?, a)?;
    let delta = lowered(store.book().delta(who, c), a as u64)?;
    let cells = [Cell::Delta(who, c, delta), Cell::Steps(steps)];
    let transfer = Transfer {
        currency: c.number,
        from: 0,
        to: to.number,
        amount: a,
    };
    let arrived = store.transfer_with(transfer, &cells)?;
    Ok(Answer::Amount(arrived))
}

pub fn pay<T: TokenBank, H: HookBank>(
    store: &mut Store<T, H>,
    session: bool,
    who: u32,
    c: u32,
    to: u32,
    a: u32,
) -> Result<Answer, VaultFault>
    requires { HasRoom store.old }
    ensures { Meets T.TokenBank.meaning H.HookBank.meaning (pay_outcome session (world T.TokenBank.meaning H.HookBank.meaning store.old.held) who c to a) store.old store.new result }
{
    let who = account(who)?;
    let to = account_or_vault(to)?;
    let c = store.currency(c)?;
    amount(a)?;
    apart(who, to)?;
    let steps = step_in(session, store.book().steps)?;
    let transfer = Transfer {
        currency: c.number,
        from: who.number,
        to: to.number,
        amount: a,
    };
    let arrived = store.transfer_with(transfer, &[Cell::Steps(steps)])?;
    Ok(Answer::Amount(arrived))
}
