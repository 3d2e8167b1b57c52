// A pool that is made, and the place of one that is not.
ghost use Rattle.std.specs.Prelude.{◌≡◌, Some, None, get_or, MatchResult};
ghost use Rattle.book.specs.Pools.{free_pool};
ghost use Rattle.faults.specs.declared.cause.Cause.TheVariants.{Pool as no_pool, PoolsFull as pools_full};

use book::{Book, Pool, PoolId};
use faults::Cause;

// A pool with its number.
#[derive(Clone, Copy)]
pub struct Made {
    pub id: PoolId,
    pub pool: Pool,
}

pub fn pool(book: &Book, number: u32) -> Result<Made, Cause>
    ensures { MatchResult result
        (λ m. (m.id.number ≡ number) × (get_or book.now.pools.rows number None ≡ Some m.pool))
        (λ f. (f ≡ no_pool) × (get_or book.now.pools.rows number None ≡ None)) }
{
    match book.pools.rows.get(number as usize) {
        Some(Some(pool)) => Ok(Made {
            id: PoolId { number },
            pool: *pool,
        }),
        _ => Err(Cause::Pool),
    }
}

// The number of the next pool.
pub fn free_pool(book: &Book) -> Result<PoolId, Cause>
    ensures { MatchResult result (λ p. free_pool book.now ≡ Some p.number) (λ f. (f ≡ pools_full) × (free_pool book.now ≡ None)) }
{
    book.free_pool().ok_or(Cause::PoolsFull)
}
