// What a pool's curve answers, where the pool has shares.
ghost use Rattle.std.specs.Prelude.{◌≡◌, ◌+◌, ◌^◌, ◌<◌, IfOk};
ghost use Rattle.book.specs.Pools.{in_side};
ghost use Rattle.trades.specs.Trades.{output_for, input_for};

use book::Pool;
use curves::{CurveBank, Market};
use faults::Cause;

fn market(pool: Pool, direction: u32) -> Market
    ensures { result ≡ record { curve = pool.terms.curve; direction = direction; x = pool.x; y = pool.y } }
{
    Market {
        curve: pool.terms.curve,
        direction,
        x: pool.x,
        y: pool.y,
    }
}

#[tactic(auto, using(crate::proofs::Rooms::room_sold))]
pub(crate) fn output_for<C: CurveBank>(
    curves: &C,
    pool: Pool,
    direction: u32,
    a: u32,
) -> Result<u32, Cause>
    ensures is { result ≡ output_for (C.CurveBank.meaning curves.now) pool direction a }
    ensures room { IfOk result (λ _. in_side direction pool + a < 2 ^ 32) }
{
    if pool.total == 0 {
        return Err(Cause::Shares);
    }
    let b = curves.buy(market(pool, direction), a)?;
    if b == 0 {
        return Err(Cause::Nothing);
    }
    Ok(b)
}

#[tactic(auto, using(crate::proofs::Rooms::room_bought))]
pub(crate) fn input_for<C: CurveBank>(
    curves: &C,
    pool: Pool,
    direction: u32,
    b: u32,
) -> Result<u32, Cause>
    ensures is { result ≡ input_for (C.CurveBank.meaning curves.now) pool direction b }
    ensures room { IfOk result (λ a. in_side direction pool + a < 2 ^ 32) }
{
    if pool.total == 0 {
        return Err(Cause::Shares);
    }
    Ok(curves.price(market(pool, direction), b)?)
}
