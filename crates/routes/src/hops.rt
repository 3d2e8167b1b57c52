// The hops of a route, one after the other. A refused one leaves those before it standing, to be taken back by the route.
ghost use Rattle.std.specs.Prelude.{◌≡◌, ◌+◌, ◌*◌, ◌≤◌, Ok, Err, length, MatchResult};
ghost use Rattle.routes.specs.Routes.{hops as hops_result};
ghost use Rattle.store.specs.Saved.{world, recorded, Kept};

use crate::fault::RouteFault;
use crate::hop::{Carried, hop};
use book::Account;
use curves::CurveBank;
use hooks::HookBank;
use store::Store;
use tokens::TokenBank;

pub(crate) fn hops<T: TokenBank, H: HookBank, C: CurveBank>(
    store: &mut Store<T, H>,
    curves: &C,
    who: Account,
    first: Carried,
    pools: &[u32],
) -> Result<Carried, RouteFault>
    requires few { length pools.now ≤ 4 }
    requires room { recorded store.old + 6 * length pools.now ≤ 390 }
    requires steps { store.old.held.book.steps + length pools.now ≤ 64 }
    ensures does { MatchResult result
        (λ c. hops_result (C.CurveBank.meaning curves.now) who.number 1 (record { carried = first; world = world T.TokenBank.meaning H.HookBank.meaning store.old.held }) pools.now ≡ Ok (record { carried = c; world = world T.TokenBank.meaning H.HookBank.meaning store.new.held }))
        (λ f. hops_result (C.CurveBank.meaning curves.now) who.number 1 (record { carried = first; world = world T.TokenBank.meaning H.HookBank.meaning store.old.held }) pools.now ≡ Err f) }
    ensures longer { recorded store.old ≤ recorded store.new }
    ensures room { recorded store.new ≤ recorded store.old + 6 * length pools.now }
    ensures kept { Kept T.TokenBank.meaning H.HookBank.meaning store.old store.new (recorded store.old) }
{
    let mut carried = first;
    let mut number = 1;
    for pool in pools {
        carried = hop(store, curves, who, number, carried, *pool)?;
        number += 1;
    }
    Ok(carried)
}
