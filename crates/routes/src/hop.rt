// One hop: the exchange of what a route carries.
ghost use Rattle.std.specs.Prelude.{◌≡◌, ◌<◌, ◌≤◌, Some, None, MatchOption, ◌+◌, IfOk};
ghost use Rattle.routes.specs.Routes.{direction_of, exchanged, hop as hop_result, Hopped};
ghost use Rattle.store.specs.Room.{HasRoom};
ghost use Rattle.store.specs.Saved.{world};

use crate::fault::RouteFault;
use book::{Account, Terms};
use checks::Made;
use curves::CurveBank;
use faults::Cause;
use hooks::HookBank;
use store::Store;
use tokens::TokenBank;
use trades::{Sides, in_and_out, sell};

// So much of a currency.
#[derive(Clone, Copy)]
pub(crate) struct Carried {
    pub currency: u32,
    pub amount: u32,
}

// The direction in which a currency goes in.
fn direction_of(currency: u32, terms: Terms) -> Option<u32>
    ensures { result ≡ direction_of currency terms }
{
    if terms.c0.number == currency {
        Some(0)
    } else if terms.c1.number == currency {
        Some(1)
    } else {
        None
    }
}

// The exchange of a hop whose direction is found.
#[tactic(auto, using(crate::proofs::Refusals::refused_at))]
fn exchanged<T: TokenBank, H: HookBank, C: CurveBank>(
    store: &mut Store<T, H>,
    curves: &C,
    who: Account,
    hop: u32,
    made: Made,
    direction: u32,
    a: u32,
) -> Result<Carried, RouteFault>
    requires free { HasRoom store.old }
    requires steps { store.old.held.book.steps < 64 }
    ensures does { Hopped T.TokenBank.meaning H.HookBank.meaning (exchanged (C.CurveBank.meaning curves.now) (world T.TokenBank.meaning H.HookBank.meaning store.old.held) who.number hop made.id.number made.pool direction a) store.old store.new result }
    ensures counted { IfOk result (λ _. store.new.held.book.steps ≡ store.old.held.book.steps + 1) }
{
    let Sides { output, .. } = in_and_out(made.pool.terms, direction);
    match sell(store, curves, who, made, direction, a) {
        Ok((amount, _)) => Ok(Carried {
            currency: output.number,
            amount,
        }),
        Err(cause) => Err(RouteFault::At {
            hop,
            fault: cause.in_pool(made.id.number),
        }),
    }
}

// The hop of this number.
pub(crate) fn hop<T: TokenBank, H: HookBank, C: CurveBank>(
    store: &mut Store<T, H>,
    curves: &C,
    who: Account,
    hop: u32,
    carried: Carried,
    pool: u32,
) -> Result<Carried, RouteFault>
    requires free { HasRoom store.old }
    requires steps { store.old.held.book.steps < 64 }
    ensures does { Hopped T.TokenBank.meaning H.HookBank.meaning (hop_result (C.CurveBank.meaning curves.now) who.number hop (record { carried = carried; world = world T.TokenBank.meaning H.HookBank.meaning store.old.held }) pool) store.old store.new result }
    ensures counted { IfOk result (λ _. store.new.held.book.steps ≡ store.old.held.book.steps + 1) }
{
    let made = checks::pool(store.book(), pool).map_err(|cause| RouteFault::At {
        hop,
        fault: cause.into(),
    })?;
    if made.pool.total == 0 {
        return Err(RouteFault::At {
            hop,
            fault: Cause::Shares.in_pool(pool),
        });
    }
    let Some(direction) = direction_of(carried.currency, made.pool.terms) else {
        return Err(RouteFault::Carried { hop, pool });
    };
    exchanged(store, curves, who, hop, made, direction, carried.amount)
}
