// A claim made from a debt, and a debt paid by a claim.
ghost use Rattle.std.specs.Prelude.{◌≤◌};
ghost use Rattle.claims.specs.Claims.{mint as mint_outcome, burn as burn_outcome};
ghost use Rattle.store.specs.Outcome.{Meets};
ghost use Rattle.store.specs.Room.{HasRoom};
ghost use Rattle.store.specs.Saved.{world};

use crate::rights::{allowance_after, decreased};
use book::Cell;
use checks::{account, amount, increased, lowered, raised, step};
use faults::VaultFault;
use hooks::HookBank;
use store::Store;
use tokens::TokenBank;

pub fn mint<T: TokenBank, H: HookBank>(
    store: &mut Store<T, H>,
    who: u32,
    to: u32,
    c: u32,
    a: u32,
) -> Result<(), VaultFault>
    requires { HasRoom store.old }
    ensures { Meets T.TokenBank.meaning H.HookBank.meaning (mint_outcome (world T.TokenBank.meaning H.HookBank.meaning store.old.held) who to c a) store.old store.new result }
{
    let who = account(who)?;
    let to = account(to)?;
    let c = store.currency(c)?;
    amount(a)?;
    let steps = step(store.book().steps)?;
    let delta = lowered(store.book().delta(who, c), a as u64)?;
    let claim = increased(store.book().claim(to, c), a as u64)?;
    store.commit(&[
        Cell::Delta(who, c, delta),
        Cell::Claim(to, c, claim),
        Cell::Steps(steps),
    ]);
    Ok(())
}

pub fn burn<T: TokenBank, H: HookBank>(
    store: &mut Store<T, H>,
    who: u32,
    from: u32,
    c: u32,
    a: u32,
) -> Result<(), VaultFault>
    requires { HasRoom store.old }
    ensures { Meets T.TokenBank.meaning H.HookBank.meaning (burn_outcome (world T.TokenBank.meaning H.HookBank.meaning store.old.held) who from c a) store.old store.new result }
{
    let who = account(who)?;
    let from = account(from)?;
    let c = store.currency(c)?;
    amount(a)?;
    let steps = step(store.book().steps)?;
    let allowance = allowance_after(store.book(), who, from, c, a)?;
    let claim = decreased(store.book().claim(from, c), a)?;
    let delta = raised(store.book().delta(who, c), a as u64)?;
    store.commit(&[
        Cell::Allowance(from, who, c, allowance),
        Cell::Claim(from, c, claim),
        Cell::Delta(who, c, delta),
        Cell::Steps(steps),
    ]);
    Ok(())
}
