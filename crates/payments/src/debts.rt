// A balance marked, what came in since credited, and a credit given up.
ghost use Rattle.std.specs.Prelude.{◌≡◌, ◌-◌, ◌≤◌, true, false, MatchResult};
ghost use Rattle.faults.specs.declared.cause.Cause.TheVariants.{Mark as no_mark};
ghost use Rattle.payments.specs.Payments.{sync as sync_outcome, settle as settle_outcome, clear as clear_outcome, is_marked, gained};
ghost use Rattle.store.specs.Outcome.{Meets};
ghost use Rattle.store.specs.Room.{HasRoom};
ghost use Rattle.store.specs.Saved.{world};

use book::{Cell, Currency, Mark};
use checks::{account, amount, exactly, raised, step};
use faults::{Cause, VaultFault};
use hooks::HookBank;
use store::{Answer, Store};
use tokens::TokenBank;

pub fn sync<T: TokenBank, H: HookBank>(
    store: &mut Store<T, H>,
    c: u32,
) -> Result<Answer, VaultFault>
    requires { HasRoom store.old }
    ensures { Meets T.TokenBank.meaning H.HookBank.meaning (sync_outcome (world T.TokenBank.meaning H.HookBank.meaning store.old.held) c) store.old store.new result }
{
    let c = store.currency(c)?;
    let steps = step(store.book().steps)?;
    let balance = store.balance(c)?;
    let mark = Mark {
        currency: c.number,
        balance,
    };
    store.commit(&[Cell::Mark(Some(mark)), Cell::Steps(steps)]);
    Ok(Answer::Amount(balance))
}

// What came in since the mark.
fn since(mark: Option<Mark>, c: Currency, balance: u32) -> Result<u32, Cause>
    ensures { MatchResult result
        (λ n. (n ≡ gained mark balance) × (is_marked mark c.number balance ≡ true))
        (λ f. (f ≡ no_mark) × (is_marked mark c.number balance ≡ false)) }
{
    match mark {
        Some(mark) if mark.currency == c.number && mark.balance <= balance => {
            Ok(balance - mark.balance)
        }
        _ => Err(Cause::Mark),
    }
}

pub fn settle<T: TokenBank, H: HookBank>(
    store: &mut Store<T, H>,
    who: u32,
    c: u32,
) -> Result<Answer, VaultFault>
    requires { HasRoom store.old }
    ensures { Meets T.TokenBank.meaning H.HookBank.meaning (settle_outcome (world T.TokenBank.meaning H.HookBank.meaning store.old.held) who c) store.old store.new result }
{
    let who = account(who)?;
    let c = store.currency(c)?;
    let steps = step(store.book().steps)?;
    let balance = store.balance(c)?;
    let credit = since(store.book().mark, c, balance)?;
    let delta = raised(store.book().delta(who, c), credit as u64)?;
    store.commit(&[
        Cell::Delta(who, c, delta),
        Cell::Mark(None),
        Cell::Steps(steps),
    ]);
    Ok(Answer::Amount(credit))
}

pub fn clear<T: TokenBank, H: HookBank>(
    store: &mut Store<T, H>,
    who: u32,
    c: u32,
    a: u32,
) -> Result<Answer, VaultFault>
    requires { HasRoom store.old }
    ensures { Meets T.TokenBank.meaning H.HookBank.meaning (clear_outcome (world T.TokenBank.meaning H.HookBank.meaning store.old.held) who c a) store.old store.new result }
{
    let who = account(who)?;
    let c = store.currency(c)?;
    amount(a)?;
    let steps = step(store.book().steps)?;
    exactly(store.book().delta(who, c), a)?;
    store.commit(&[Cell::Delta(who, c, 0), Cell::Steps(steps)]);
    Ok(Answer::Done)
}
