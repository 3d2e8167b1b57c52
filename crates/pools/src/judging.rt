// What a deposit and a withdrawal come to.
ghost use Rattle.std.specs.Prelude.{◌≡◌, ◌-◌};
ghost use Rattle.pools.specs.Pools.{charged, credited, first_deposit, deposit, withdrawal};

use crate::change::{Change, Deltas};
use amounts::{LOCKED_SHARES, deposit_cost, seeded, withdrawn};
use book::{Account, Book, Pool, Terms};
use checks::{Made, increased, lowered, raised};
use faults::Cause;

// The deltas after a cost in both currencies.
fn charged(book: &Book, who: Account, terms: Terms, a0: u64, a1: u64) -> Result<Deltas, Cause>
    ensures { result ≡ charged book.now who.number terms a0 a1 }
{
    let in_c0 = lowered(book.delta(who, terms.c0), a0)?;
    let in_c1 = lowered(book.delta(who, terms.c1), a1)?;
    Ok(Deltas { in_c0, in_c1 })
}

// The deltas after a credit in both.
fn credited(book: &Book, who: Account, terms: Terms, a0: u64, a1: u64) -> Result<Deltas, Cause>
    ensures { result ≡ credited book.now who.number terms a0 a1 }
{
    let in_c0 = raised(book.delta(who, terms.c0), a0)?;
    let in_c1 = raised(book.delta(who, terms.c1), a1)?;
    Ok(Deltas { in_c0, in_c1 })
}

// Both holdings come in, and the root of their product is the total.
pub(crate) fn first_deposit(
    book: &Book,
    who: Account,
    made: Made,
    a: u32,
    b: u32,
) -> Result<(u32, Change), Cause>
    ensures { result ≡ first_deposit book.now who.number made.pool a b }
{
    let Made { pool, .. } = made;
    if pool.total != 0 {
        return Err(Cause::Shares);
    }
    let share = seeded(a, b).ok_or(Cause::Nothing)?;
    let deltas = charged(book, who, pool.terms, a as u64, b as u64)?;
    let pool = Pool {
        x: a,
        y: b,
        total: share + LOCKED_SHARES,
        ..pool
    };
    Ok((
        share,
        Change {
            pool,
            deltas,
            share,
        },
    ))
}

// Both costs are rounded up.
pub(crate) fn deposit(
    book: &Book,
    who: Account,
    made: Made,
    shares: u32,
) -> Result<((u64, u64), Change), Cause>
    ensures { result ≡ deposit book.now who.number made.id.number made.pool shares }
{
    let Made { id, pool } = made;
    if pool.total == 0 {
        return Err(Cause::Shares);
    }
    let a0 = deposit_cost(shares, pool.x, pool.total);
    let a1 = deposit_cost(shares, pool.y, pool.total);
    let x = increased(pool.x, a0)?;
    let y = increased(pool.y, a1)?;
    let total = increased(pool.total, shares as u64)?;
    let share = increased(book.share(id, who), shares as u64)?;
    let deltas = charged(book, who, pool.terms, a0, a1)?;
    let pool = Pool {
        x,
        y,
        total,
        ..pool
    };
    Ok((
        (a0, a1),
        Change {
            pool,
            deltas,
            share,
        },
    ))
}

// Both payments are rounded down.
pub(crate) fn withdrawal(
    book: &Book,
    who: Account,
    made: Made,
    shares: u32,
) -> Result<((u64, u64), Change), Cause>
    ensures { result ≡ withdrawal book.now who.number made.id.number made.pool shares }
{
    let Made { id, pool } = made;
    if pool.total == 0 {
        return Err(Cause::Shares);
    }
    let share = book
        .share(id, who)
        .checked_sub(shares)
        .ok_or(Cause::SharesShort)?;
    let a0 = withdrawn(shares, pool.x, pool.total);
    let a1 = withdrawn(shares, pool.y, pool.total);
    if a0 == 0 && a1 == 0 {
        return Err(Cause::Nothing);
    }
    let deltas = credited(book, who, pool.terms, a0, a1)?;
    let pool = Pool {
        x: left(pool.x, a0),
        y: left(pool.y, a1),
        total: pool.total.saturating_sub(shares),
        ..pool
    };
    Ok((
        (a0, a1),
        Change {
            pool,
            deltas,
            share,
        },
    ))
}

// A holding after a payment, which is never more than the holding where the shares are no more than the total.
fn left(held: u32, paid: u64) -> u32
    ensures { result ≡ held - paid }
{
    (held as u64).saturating_sub(paid) as u32
}
