// A route: all its hops, or nothing of them.
ghost use Rattle.std.specs.Prelude.{◌≡◌, ◌+◌, ◌*◌, ◌^◌, ◌<◌, ◌≤◌, Ok, Err, true, length, IfSome, MatchResult, nat_le};
ghost use Rattle.routes.specs.Routes.{hops as hops_result, arrived, unknown, all_known, has_hops, routed, Routed};
ghost use Rattle.store.specs.Saved.{world, recorded};
ghost use Rattle.faults.specs.declared.cause.Cause.TheVariants.{Hops as no_hops, Steps as no_steps};
ghost use Rattle.amounts.specs.Checks.{need, with_ok};

use crate::fault::RouteFault;
use crate::hop::Carried;
use crate::hops::hops;
use book::{Account, Book};
use checks::{account, amount, amount_or_none};
use curves::CurveBank;
use faults::Cause;
use hooks::HookBank;
use store::Store;
use tokens::TokenBank;

// The hops, taken back where one is refused or too little arrives.
fn carried_out<T: TokenBank, H: HookBank, C: CurveBank>(
    store: &mut Store<T, H>,
    curves: &C,
    who: Account,
    first: Carried,
    least: u32,
    pools: &[u32],
) -> Result<u32, RouteFault>
    requires few { length pools.now ≤ 4 }
    requires room { recorded store.old + 6 * length pools.now ≤ 390 }
    requires steps { store.old.held.book.steps + length pools.now ≤ 64 }
    ensures { Routed T.TokenBank.meaning H.HookBank.meaning (length pools.now) (with_ok (hops_result (C.CurveBank.meaning curves.now) who.number 1 (record { carried = first; world = world T.TokenBank.meaning H.HookBank.meaning store.old.held }) pools.now) (arrived least)) store.old store.new result }
{
    let start = store.len();
    match hops(store, curves, who, first, pools) {
        Ok(last) if last.amount >= least => Ok(last.amount),
        Ok(_) => {
            store.rewind_to(start);
            Err(RouteFault::Least)
        }
        Err(fault) => {
            store.rewind_to(start);
            Err(fault)
        }
    }
}

// Every pool of the list is made, or which is the first that is not.
fn known(book: &Book, pools: &[u32]) -> Result<(), RouteFault>
    requires { length pools.now < 2 ^ 32 }
    ensures { result ≡ all_known (unknown book.now pools.now) (Ok tt) }
{
    match first_unknown(book, pools) {
        Some(position) => Err(RouteFault::At {
            hop: position as u32 + 1,
            fault: Cause::Pool.into(),
        }),
        None => Ok(()),
    }
}

fn first_unknown(book: &Book, pools: &[u32]) -> Option<usize>
    ensures is { result ≡ unknown book.now pools.now }
    ensures within { IfSome result (λ n. n < length pools.now) }
{
    pools
        .iter()
        .position(|pool| checks::pool(book, *pool).is_err())
}

// One hop to four, and a step left for each.
fn check_hops(book: &Book, pools: &[u32]) -> Result<(), Cause>
    ensures { result ≡ need (has_hops (length pools.now)) no_hops (need (nat_le (book.now.steps + length pools.now) 64) no_steps (Ok tt)) }
{
    if pools.is_empty() || pools.len() > 4 {
        return Err(Cause::Hops);
    }
    if book.steps as usize + pools.len() > 64 {
        return Err(Cause::Steps);
    }
    Ok(())
}

pub fn route<T: TokenBank, H: HookBank, C: CurveBank>(
    store: &mut Store<T, H>,
    curves: &C,
    who: u32,
    c: u32,
    a: u32,
    least: u32,
    pools: &[u32],
) -> Result<u32, RouteFault>
    requires few { length pools.now < 2 ^ 32 }
    requires room { recorded store.old ≤ 6 * store.old.held.book.steps }
    ensures { Routed T.TokenBank.meaning H.HookBank.meaning (length pools.now) (routed (C.CurveBank.meaning curves.now) (world T.TokenBank.meaning H.HookBank.meaning store.old.held) who c a least pools.now) store.old store.new result }
{
    let who = account(who)?;
    let c = store.currency(c)?;
    known(store.book(), pools)?;
    amount(a)?;
    amount_or_none(least)?;
    check_hops(store.book(), pools)?;
    let first = Carried {
        currency: c.number,
        amount: a,
    };
    carried_out(store, curves, who, first, least, pools)
}
