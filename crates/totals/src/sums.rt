// The sums of one currency over the pools and over the claims.
ghost use Rattle.std.specs.Prelude.{◌≡◌, ◌^◌, ◌<◌, ◌≤◌, slice_index};
ghost use Rattle.totals.specs.Totals.{held as held_of, pools_in, claims_in};

use book::{Book, Currency, Pool};

// What one pool holds of a currency.
fn held(pool: &Option<Pool>, c: Currency) -> u64
    ensures is { result ≡ held_of pool.now c.number }
    ensures fits { result ≤ 8589934590 }
{
    let Some(pool) = pool else { return 0 };
    let x = if pool.terms.c0 == c { pool.x } else { 0 };
    let y = if pool.terms.c1 == c { pool.y } else { 0 };
    x as u64 + y as u64
}

// The claim of one account.
fn claimed(row: &[u32; 8], c: Currency) -> u64
    ensures is { result ≡ slice_index row.now c.number }
    ensures fits { result < 2 ^ 32 }
{
    row[c.number as usize] as u64
}

pub fn pools_in(book: &Book, c: Currency) -> u64
    ensures { result ≡ pools_in book.now c.number }
{
    book.pools.rows.iter().map(|pool| held(pool, c)).sum()
}

pub fn claims_in(book: &Book, c: Currency) -> u64
    ensures { result ≡ claims_in book.now c.number }
{
    book.claims.iter().map(|row| claimed(row, c)).sum()
}
