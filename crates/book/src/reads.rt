// What stands in a cell.
ghost use Rattle.std.specs.Prelude.{◌≡◌, false, pos, None, get_or};
ghost use Rattle.book.specs.Cells.{allowed};
ghost use Rattle.amounts.specs.Rows.{at2};

use crate::ids::{Account, Currency, PoolId};
use crate::records::{Book, Pool};

impl Book {
    pub fn pool(&self, pool: PoolId) -> Option<Pool>
        ensures { result ≡ get_or self.now.pools.rows pool.number None }
    {
        self.pools.rows[pool.number as usize]
    }

    pub fn share(&self, pool: PoolId, who: Account) -> u32
        ensures { result ≡ at2 self.now.shares pool.number who.number 0 }
    {
        self.shares[pool.number as usize][who.number as usize]
    }

    pub fn claim(&self, who: Account, c: Currency) -> u32
        ensures { result ≡ at2 self.now.claims who.number c.number 0 }
    {
        self.claims[who.number as usize][c.number as usize]
    }

    pub fn allowance(&self, owner: Account, spender: Account, c: Currency) -> u32
        ensures { result ≡ allowed self.now.allowances owner.number spender.number c.number }
    {
        let allowed = &self.allowances[owner.number as usize];
        allowed.rows[spender.number as usize][c.number as usize]
    }

    pub fn is_operator(&self, owner: Account, spender: Account) -> bool
        ensures { result ≡ at2 self.now.operators owner.number spender.number false }
    {
        self.operators[owner.number as usize][spender.number as usize]
    }

    pub fn delta(&self, who: Account, c: Currency) -> i64
        ensures { result ≡ at2 self.now.deltas who.number c.number (pos 0) }
    {
        self.deltas[who.number as usize][c.number as usize]
    }
}
