// Claims handed on, and allowances to do so.
ghost use Rattle.std.specs.Prelude.{◌≤◌};
ghost use Rattle.claims.specs.Claims.{hand as hand_outcome, allow as allow_outcome};
ghost use Rattle.store.specs.Outcome.{Meets};
ghost use Rattle.store.specs.Room.{HasRoom};
ghost use Rattle.store.specs.Saved.{world};

use crate::rights::{allowance_after, decreased};
use book::Cell;
use checks::{account, amount, amount_or_none, apart, increased, step_in};
use faults::VaultFault;
use hooks::HookBank;
use store::Store;
use tokens::TokenBank;

// In a session a step is counted.
pub fn hand<T: TokenBank, H: HookBank>(
    store: &mut Store<T, H>,
    session: bool,
    caller: u32,
    from: u32,
    to: u32,
    c: u32,
    a: u32,
) -> Result<(), VaultFault>
    requires { HasRoom store.old }
    ensures { Meets T.TokenBank.meaning H.HookBank.meaning (hand_outcome session (world T.TokenBank.meaning H.HookBank.meaning store.old.held) caller from to c a) store.old store.new result }
{
    let caller = account(caller)?;
    let from = account(from)?;
    let to = account(to)?;
    let c = store.currency(c)?;
    amount(a)?;
    apart(from, to)?;
    let steps = step_in(session, store.book().steps)?;
    let allowance = allowance_after(store.book(), caller, from, c, a)?;
    let left = decreased(store.book().claim(from, c), a)?;
    let claim = increased(store.book().claim(to, c), a as u64)?;
    store.commit(&[
        Cell::Allowance(from, caller, c, allowance),
        Cell::Claim(from, c, left),
        Cell::Claim(to, c, claim),
        Cell::Steps(steps),
    ]);
    Ok(())
}

pub fn allow<T: TokenBank, H: HookBank>(
    store: &mut Store<T, H>,
    owner: u32,
    spender: u32,
    c: u32,
    a: u32,
) -> Result<(), VaultFault>
    requires { HasRoom store.old }
    ensures { Meets T.TokenBank.meaning H.HookBank.meaning (allow_outcome (world T.TokenBank.meaning H.HookBank.meaning store.old.held) owner spender c a) store.old store.new result }
{
    let owner = account(owner)?;
    let spender = account(spender)?;
    let c = store.currency(c)?;
    amount_or_none(a)?;
    store.commit(&[Cell::Allowance(owner, spender, c, a)]);
    Ok(())
}
