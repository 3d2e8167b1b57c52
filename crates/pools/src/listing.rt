// A new pool.
ghost use Rattle.std.specs.Prelude.{◌≡◌, ◌≤◌, nat_lt};
ghost use Rattle.pools.specs.Pools.{pool as pool_outcome};
ghost use Rattle.store.specs.Outcome.{Meets};
ghost use Rattle.store.specs.Room.{HasRoom};
ghost use Rattle.store.specs.Saved.{world};

use book::{Cell, Pool, Terms};
use checks::free_pool;
use curves::CurveBank;
use faults::{Cause, VaultFault};
use hooks::HookBank;
use store::Store;
use tokens::TokenBank;

pub fn pool<T: TokenBank, H: HookBank, C: CurveBank>(
    store: &mut Store<T, H>,
    curves: &C,
    c0: u32,
    c1: u32,
    curve: u32,
    hook: u32,
) -> Result<u32, VaultFault>
    requires { HasRoom store.old }
    ensures { Meets T.TokenBank.meaning H.HookBank.meaning (pool_outcome (C.CurveBank.meaning curves.now) (world T.TokenBank.meaning H.HookBank.meaning store.old.held) c0 c1 curve hook) store.old store.new result }
{
    let c0 = store.currency(c0)?;
    let c1 = store.currency(c1)?;
    if curve >= curves.count() || !store.has_hook(hook) {
        return Err(Cause::CurveOrHook.into());
    }
    if c0.number >= c1.number {
        return Err(Cause::CurrencyOrder.into());
    }
    let terms = Terms::new(c0, c1, curve, hook);
    if store.book().has_pool(terms) {
        return Err(Cause::PoolExists.into());
    }
    let id = free_pool(store.book())?;
    store.commit(&[Cell::Pool(id, Some(Pool::empty(terms)))]);
    Ok(id.number)
}
