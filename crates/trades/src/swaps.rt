// An exchange of a given input, and one for a given output.
ghost use Rattle.std.specs.Prelude.{◌≡◌, ◌+◌, ◌<◌, ◌≤◌, IfOk};
ghost use Rattle.store.specs.Outcome.{Meets};
ghost use Rattle.store.specs.Room.{HasRoom};
ghost use Rattle.store.specs.Saved.{world};
ghost use Rattle.trades.specs.Trades.{Does, sold, bought, swap as swap_outcome, want as want_outcome};

use crate::exchange::exchange;
use crate::quotes::{input_for, output_for};
use book::Account;
use checks::{Made, account, amount, flag, step};
use curves::CurveBank;
use faults::{Cause, VaultFault};
use hooks::HookBank;
use store::Store;
use tokens::TokenBank;

// What is credited for `a`, and the toll; also each hop of a route.
pub fn sell<T: TokenBank, H: HookBank, C: CurveBank>(
    store: &mut Store<T, H>,
    curves: &C,
    who: Account,
    made: Made,
    direction: u32,
    a: u32,
) -> Result<(u32, u32), Cause>
    requires free { HasRoom store.old }
    requires steps { store.old.held.book.steps < 64 }
    ensures does { Does T.TokenBank.meaning H.HookBank.meaning (sold (C.CurveBank.meaning curves.now) (world T.TokenBank.meaning H.HookBank.meaning store.old.held) who.number made.id.number made.pool direction a) store.old store.new result }
    ensures counted { IfOk result (λ _. store.new.held.book.steps ≡ store.old.held.book.steps + 1) }
{
    let b = output_for(curves, made.pool, direction, a)?;
    let toll = exchange(store, who, made, direction, a, b)?;
    Ok((b.saturating_sub(toll), toll))
}

// What is paid for `b`, and the toll.
#[tactic(auto, using(crate::proofs::Refusals::refused_within))]
fn buy<T: TokenBank, H: HookBank, C: CurveBank>(
    store: &mut Store<T, H>,
    curves: &C,
    who: Account,
    made: Made,
    direction: u32,
    b: u32,
) -> Result<(u32, u32), Cause>
    requires free { HasRoom store.old }
    requires steps { store.old.held.book.steps < 64 }
    ensures { Does T.TokenBank.meaning H.HookBank.meaning (bought (C.CurveBank.meaning curves.now) (world T.TokenBank.meaning H.HookBank.meaning store.old.held) who.number made.id.number made.pool direction b) store.old store.new result }
{
    let a = input_for(curves, made.pool, direction, b)?;
    let toll = exchange(store, who, made, direction, a, b)?;
    Ok((a, toll))
}

#[tactic(auto, using(crate::proofs::Refusals::refused_in_pool))]
pub fn swap<T: TokenBank, H: HookBank, C: CurveBank>(
    store: &mut Store<T, H>,
    curves: &C,
    who: u32,
    pool: u32,
    direction: u32,
    a: u32,
) -> Result<(u32, u32), VaultFault>
    requires { HasRoom store.old }
    ensures { Meets T.TokenBank.meaning H.HookBank.meaning (swap_outcome (C.CurveBank.meaning curves.now) (world T.TokenBank.meaning H.HookBank.meaning store.old.held) who pool direction a) store.old store.new result }
{
    let who = account(who)?;
    let made = checks::pool(store.book(), pool)?;
    flag(direction)?;
    amount(a)?;
    step(store.book().steps)?;
    sell(store, curves, who, made, direction, a).map_err(|cause| cause.in_pool(pool))
}

pub fn want<T: TokenBank, H: HookBank, C: CurveBank>(
    store: &mut Store<T, H>,
    curves: &C,
    who: u32,
    pool: u32,
    direction: u32,
    b: u32,
) -> Result<(u32, u32), VaultFault>
    requires { HasRoom store.old }
    ensures { Meets T.TokenBank.meaning H.HookBank.meaning (want_outcome (C.CurveBank.meaning curves.now) (world T.TokenBank.meaning H.HookBank.meaning store.old.held) who pool direction b) store.old store.new result }
{
    let who = account(who)?;
    let made = checks::pool(store.book(), pool)?;
    flag(direction)?;
    amount(b)?;
    step(store.book().steps)?;
    buy(store, curves, who, made, direction, b).map_err(|cause| cause.in_pool(pool))
}
