// One exchange, whose input and output are known.
ghost use Rattle.std.specs.Prelude.{◌≡◌, ◌+◌, ◌^◌, ◌<◌, ◌≤◌, Ok, Err, MatchResult, IfOk};
ghost use Rattle.book.specs.Pools.{in_side};
ghost use Rattle.store.specs.Outcome.{Stepped};
ghost use Rattle.store.specs.Room.{HasRoom};
ghost use Rattle.store.specs.Saved.{world};
ghost use Rattle.trades.specs.Trades.{Does, exchange as exchange_result, judged, traded, goes_in, comes_out};

use book::{Account, Cell, Currency, Terms};
use checks::{Made, increased, lowered, raised};
use faults::Cause;
use hooks::{HookBank, Passage};
use store::Store;
use tokens::TokenBank;

// The currencies of a direction.
#[derive(Clone, Copy)]
pub struct Sides {
    pub input: Currency,
    pub output: Currency,
}

pub fn in_and_out(terms: Terms, direction: u32) -> Sides
    ensures input { result.input.number ≡ goes_in direction terms }
    ensures output { result.output.number ≡ comes_out direction terms }
{
    if direction == 0 {
        Sides {
            input: terms.c0,
            output: terms.c1,
        }
    } else {
        Sides {
            input: terms.c1,
            output: terms.c0,
        }
    }
}

// The toll, and the numbers that change with it: who's deltas and the payee's claim.
#[derive(Clone, Copy)]
struct Judged {
    toll: u32,
    paid: i64,
    credited: i64,
    claim: u32,
}

// Who pays `a` and is credited `b` less the toll, which is the payee's.
fn judge<T: TokenBank, H: HookBank>(
    store: &Store<T, H>,
    who: Account,
    made: Made,
    direction: u32,
    a: u32,
    b: u32,
) -> Result<(Account, Judged), Cause>
    ensures { MatchResult result
        (λ r. (judged (world T.TokenBank.meaning H.HookBank.meaning store.now.held) who.number made.pool direction a b ≡ Ok r.1)
        × (r.0.number ≡ (H.HookBank.meaning store.now.held.hooks).payee made.pool.terms.hook))
        (λ f. judged (world T.TokenBank.meaning H.HookBank.meaning store.now.held) who.number made.pool direction a b ≡ Err f) }
{
    let Terms { hook, .. } = made.pool.terms;
    let toll = store.ask(Passage {
        hook,
        input: a,
        output: b,
    })?;
    let payee = store.payee(hook)?;
    let Sides { input, output } = in_and_out(made.pool.terms, direction);
    let book = store.book();
    let paid = lowered(book.delta(who, input), a as u64)?;
    let credited = raised(book.delta(who, output), b.saturating_sub(toll) as u64)?;
    let claim = increased(book.claim(payee, output), toll as u64)?;
    Ok((
        payee,
        Judged {
            toll,
            paid,
            credited,
            claim,
        },
    ))
}

// Changes what was judged, tells the hook and counts a step.
fn carry_out<T: TokenBank, H: HookBank>(
    store: &mut Store<T, H>,
    who: Account,
    made: Made,
    direction: u32,
    a: u32,
    b: u32,
    payee: Account,
    judged: Judged,
)
    requires free { HasRoom store.old }
    requires steps { store.old.held.book.steps < 64 }
    requires room { in_side direction made.pool + a < 2 ^ 32 }
    requires payee { payee.number ≡ (H.HookBank.meaning store.old.held.hooks).payee made.pool.terms.hook }
    ensures does { Stepped T.TokenBank.meaning H.HookBank.meaning store.old store.new (traded (world T.TokenBank.meaning H.HookBank.meaning store.old.held) who.number made.id.number made.pool direction a b judged) }
    ensures counted { store.new.held.book.steps ≡ store.old.held.book.steps + 1 }
{
    let Made { id, pool } = made;
    let Sides { input, output } = in_and_out(pool.terms, direction);
    let steps = store.book().steps + 1;
    // it was asked, so it is known, and telling it is accepted
    let _ = store.tell(Passage {
        hook: pool.terms.hook,
        input: a,
        output: b,
    });
    store.commit(&[
        Cell::Pool(id, Some(pool.exchanged(direction, a, b))),
        Cell::Delta(who, input, judged.paid),
        Cell::Delta(who, output, judged.credited),
        Cell::Claim(payee, output, judged.claim),
        Cell::Steps(steps),
    ]);
}

// Exchanges `a` for `b`, and answers the toll.
pub(crate) fn exchange<T: TokenBank, H: HookBank>(
    store: &mut Store<T, H>,
    who: Account,
    made: Made,
    direction: u32,
    a: u32,
    b: u32,
) -> Result<u32, Cause>
    requires free { HasRoom store.old }
    requires steps { store.old.held.book.steps < 64 }
    requires room { in_side direction made.pool + a < 2 ^ 32 }
    ensures does { Does T.TokenBank.meaning H.HookBank.meaning (exchange_result (world T.TokenBank.meaning H.HookBank.meaning store.old.held) who.number made.id.number made.pool direction a b) store.old store.new result }
    ensures counted { IfOk result (λ _. store.new.held.book.steps ≡ store.old.held.book.steps + 1) }
{
    let (payee, judged) = judge(store, who, made, direction, a, b)?;
    carry_out(store, who, made, direction, a, b, payee, judged);
    Ok(judged.toll)
}
