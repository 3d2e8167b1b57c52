// Shares of a pool: what a first deposit makes, what a deposit costs, what a withdrawal pays.
ghost use Rattle.std.specs.Prelude.{◌≡◌, ◌+◌, ◌^◌, ◌<◌, IfSome};
ghost use Rattle.amounts.specs.Shares.{root as whole_root, seeded as seeded_shares, cost, paid};

use crate::LOCKED_SHARES;

// The whole part of the square root.
fn root(n: u64) -> u32
    ensures { result ≡ whole_root n }
{
    n.isqrt() as u32
}

// The shares that the first depositor gets for `a` and `b`, or none where they are too few.
pub fn seeded(a: u32, b: u32) -> Option<u32>
    ensures is { result ≡ seeded_shares a b }
    ensures fits { IfSome result (λ s. s + 1000 < 2 ^ 32) }
{
    let made = root(a as u64 * b as u64);
    if made <= LOCKED_SHARES {
        return None;
    }
    Some(made - LOCKED_SHARES)
}

// What `shares` of `total` cost of a holding, rounded up.
pub fn deposit_cost(shares: u32, held: u32, total: u32) -> u64
    requires { 0 < total }
    ensures { result ≡ cost shares held total }
{
    (shares as u64 * held as u64 + (total - 1) as u64) / total as u64
}

// What `shares` of `total` are paid of a holding, rounded down.
pub fn withdrawn(shares: u32, held: u32, total: u32) -> u64
    requires { 0 < total }
    ensures { result ≡ paid shares held total }
{
    shares as u64 * held as u64 / total as u64
}
