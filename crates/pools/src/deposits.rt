// Deposits and withdrawals.
ghost use Rattle.std.specs.Prelude.{◌≤◌};
ghost use Rattle.pools.specs.Pools.{seed as seed_outcome, add as add_outcome, remove as remove_outcome};
ghost use Rattle.store.specs.Outcome.{Meets};
ghost use Rattle.store.specs.Room.{HasRoom};
ghost use Rattle.store.specs.Saved.{world};

use crate::judging::{deposit, first_deposit, withdrawal};
use checks::{account, amount, pool, step};
use faults::VaultFault;
use hooks::HookBank;
use store::Store;
use tokens::TokenBank;

pub fn seed<T: TokenBank, H: HookBank>(
    store: &mut Store<T, H>,
    who: u32,
    pool: u32,
    a: u32,
    b: u32,
) -> Result<u32, VaultFault>
    requires { HasRoom store.old }
    ensures { Meets T.TokenBank.meaning H.HookBank.meaning (seed_outcome (world T.TokenBank.meaning H.HookBank.meaning store.old.held) who pool a b) store.old store.new result }
{
    let who = account(who)?;
    let made = checks::pool(store.book(), pool)?;
    amount(a)?;
    amount(b)?;
    let steps = step(store.book().steps)?;
    let (answer, change) = first_deposit(store.book(), who, made, a, b).map_err(
        |cause| cause.in_pool(pool),
    )?;
    change.carry_out(store, who, made.id, steps);
    Ok(answer)
}

pub fn add<T: TokenBank, H: HookBank>(
    store: &mut Store<T, H>,
    who: u32,
    pool: u32,
    shares: u32,
) -> Result<(u64, u64), VaultFault>
    requires { HasRoom store.old }
    ensures { Meets T.TokenBank.meaning H.HookBank.meaning (add_outcome (world T.TokenBank.meaning H.HookBank.meaning store.old.held) who pool shares) store.old store.new result }
{
    let who = account(who)?;
    let made = checks::pool(store.book(), pool)?;
    amount(shares)?;
    let steps = step(store.book().steps)?;
    let (answer, change) = deposit(store.book(), who, made, shares).map_err(|cause| cause.in_pool(
        pool,
    ))?;
    change.carry_out(store, who, made.id, steps);
    Ok(answer)
}

pub fn remove<T: TokenBank, H: HookBank>(
    store: &mut Store<T, H>,
    who: u32,
    pool: u32,
    shares: u32,
) -> Result<(u64, u64), VaultFault>
    requires { HasRoom store.old }
    ensures { Meets T.TokenBank.meaning H.HookBank.meaning (remove_outcome (world T.TokenBank.meaning H.HookBank.meaning store.old.held) who pool shares) store.old store.new result }
{
    let who = account(who)?;
    let made = checks::pool(store.book(), pool)?;
    amount(shares)?;
    let steps = step(store.book().steps)?;
    let (answer, change) = withdrawal(store.book(), who, made, shares).map_err(
        |cause| cause.in_pool(pool),
    )?;
    change.carry_out(store, who, made.id, steps);
    Ok(answer)
}
