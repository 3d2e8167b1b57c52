// What a deposit or a withdrawal changes.
ghost use Rattle.std.specs.Prelude.{◌+◌, ◌≤◌, ◌≡◌};
ghost use Rattle.pools.specs.Pools.{changed};
ghost use Rattle.store.specs.Saved.{world, recorded, Changed};
ghost use Rattle.store.specs.World.{with_book};

use book::{Account, Cell, Pool, PoolId, Terms};
use hooks::HookBank;
use store::Store;
use tokens::TokenBank;

// An account's deltas in the two currencies of a pool.
#[derive(Clone, Copy)]
pub(crate) struct Deltas {
    pub in_c0: i64,
    pub in_c1: i64,
}

// The pool, the account's deltas and its shares, as they become.
#[derive(Clone, Copy)]
pub(crate) struct Change {
    pub pool: Pool,
    pub deltas: Deltas,
    pub share: u32,
}

impl Change {
    // Writes what became, and the step count.
    pub(crate) fn carry_out<T: TokenBank, H: HookBank>(
        self,
        store: &mut Store<T, H>,
        who: Account,
        id: PoolId,
        steps: u32,
    )
        requires { recorded store.old + 5 ≤ 390 }
        ensures { Changed T.TokenBank.meaning H.HookBank.meaning store.old store.new 5
            (with_book (world T.TokenBank.meaning H.HookBank.meaning store.old.held) (changed store.old.held.book who.number id.number self steps)) }
    {
        let Terms { c0, c1, .. } = self.pool.terms;
        store.commit(&[
            Cell::Pool(id, Some(self.pool)),
            Cell::Delta(who, c0, self.deltas.in_c0),
            Cell::Delta(who, c1, self.deltas.in_c1),
            Cell::Share(id, who, self.share),
            Cell::Steps(steps),
        ]);
    }
}
