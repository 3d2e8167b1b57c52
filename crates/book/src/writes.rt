// One cell written, and nothing else changed.
ghost use Rattle.std.specs.Prelude.{◌≡◌};
ghost use Rattle.book.specs.Cells.{written, former};

use crate::cell::Cell;
use crate::records::Book;
use std::mem::replace;

impl Book {
    // Writes a cell, and answers it with what stood there.
    pub fn write(&mut self, cell: Cell) -> Cell
        ensures was { result ≡ former self.old cell }
        ensures leaves { self.new ≡ written self.old cell }
    {
        match cell {
            Cell::Pool(pool, to) => Cell::Pool(
                pool,
                replace(&mut self.pools.rows[pool.number as usize], to),
            ),
            Cell::Share(pool, who, to) => {
                let cell = &mut self.shares[pool.number as usize][who.number as usize];
                Cell::Share(pool, who, replace(cell, to))
            }
            Cell::Claim(who, c, to) => {
                let cell = &mut self.claims[who.number as usize][c.number as usize];
                Cell::Claim(who, c, replace(cell, to))
            }
            Cell::Allowance(owner, spender, c, to) => {
                let allowed = &mut self.allowances[owner.number as usize];
                let cell = &mut allowed.rows[spender.number as usize][c.number as usize];
                Cell::Allowance(owner, spender, c, replace(cell, to))
            }
            Cell::Operator(owner, spender, to) => {
                let cell = &mut self.operators[owner.number as usize][spender.number as usize];
                Cell::Operator(owner, spender, replace(cell, to))
            }
            Cell::Delta(who, c, to) => {
                let cell = &mut self.deltas[who.number as usize][c.number as usize];
                Cell::Delta(who, c, replace(cell, to))
            }
            Cell::Mark(to) => Cell::Mark(replace(&mut self.mark, to)),
            Cell::Steps(to) => Cell::Steps(replace(&mut self.steps, to)),
        }
    }
}
