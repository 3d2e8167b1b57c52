// Which pools are made.
ghost use Rattle.std.specs.Prelude.{◌≡◌, ◌+◌, ◌^◌, ◌<◌, Some, None, IfSome, MatchOption};
ghost use Rattle.book.specs.Pools.{free_pool, has_pool, terms, empty_pool, in_side, exchanged};

use crate::ids::{Currency, PoolId};
use crate::records::{Book, Pool, Terms};

impl Terms {
    #[tactic(auto, using(crate::proofs::Currencies::same_currency))]
    pub fn new(c0: Currency, c1: Currency, curve: u32, hook: u32) -> Terms
        ensures { result ≡ terms c0.number c1.number curve hook }
    {
        Terms {
            c0,
            c1,
            curve,
            hook,
        }
    }
}

impl Pool {
    pub fn empty(terms: Terms) -> Pool
        ensures { result ≡ empty_pool terms }
    {
        Pool {
            terms,
            x: 0,
            y: 0,
            total: 0,
        }
    }

    // So much in and so much out; what goes out of a holding is never more than it, by the laws of curves.
    pub fn exchanged(self, direction: u32, input: u32, output: u32) -> Pool
        requires { in_side direction self + input < 2 ^ 32 }
        ensures { result ≡ exchanged self direction input output }
    {
        if direction == 0 {
            Pool {
                x: self.x + input,
                y: self.y.saturating_sub(output),
                ..self
            }
        } else {
            Pool {
                x: self.x.saturating_sub(output),
                y: self.y + input,
                ..self
            }
        }
    }
}

impl Book {
    fn first_free(&self) -> Option<usize>
        ensures is { result ≡ free_pool self.now }
        ensures within { IfSome result (λ n. n < 8) }
    {
        self.pools.rows.iter().position(|pool| pool.is_none())
    }

    // The number of the next pool, where there is room for one.
    pub fn free_pool(&self) -> Option<PoolId>
        ensures { MatchOption result (free_pool self.now ≡ None) (λ p. free_pool self.now ≡ Some p.number) }
    {
        match self.first_free() {
            Some(number) => Some(PoolId {
                number: number as u32,
            }),
            None => None,
        }
    }

    pub fn has_pool(&self, terms: Terms) -> bool
        ensures { result ≡ has_pool self.now terms }
    {
        self.pools
            .rows
            .iter()
            .any(|pool| pool.is_some_and(|pool| pool.terms == terms))
    }
}
