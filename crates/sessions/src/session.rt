// Sessions on a plain and a levy ledger, from a new vault to a locked one.
use crate::stop::Stop;
use crate::strays::stray_after;
use actions::Action;
use book::Currency;
use hooks::{Hook, HookBank};
use runs::{Line, run};
use std::io;
use store::Answer;
use tokens::{Beside, Ledger, TokenBank};
use totals::{claims_in, deltas_in, pools_in};
use vault::{Call, Vault};

const NOTHING: [u32; 16] = [0; 16];

// The vault's own account holds something from the start: the strays.
const OPENING: [u32; 16] = [
    10000, 5000, 5000, 5000, 5000, 5000, 5000, 5000, 5000, 5000, 5000, 5000, 5000, 5000, 5000, 5000,
];

const CALLS: [Call; 33] = [
    Call::Act(Action::Operator {
        owner: 1,
        spender: 3,
        flag: 1,
    }),
    Call::Act(Action::Take {
        who: 1,
        c: 0,
        to: 1,
        a: 100,
    }),
    Call::Open,
    Call::Act(Action::Take {
        who: 1,
        c: 0,
        to: 1,
        a: 100,
    }),
    Call::Act(Action::Sync { c: 0 }),
    Call::Act(Action::Pay {
        who: 1,
        c: 0,
        to: 0,
        a: 60,
    }),
    Call::Act(Action::Settle { who: 1, c: 0 }),
    Call::Frame,
    Call::Act(Action::Take {
        who: 1,
        c: 1,
        to: 2,
        a: 300,
    }),
    Call::Close,
    Call::Drop,
    Call::Act(Action::Sync { c: 0 }),
    Call::Act(Action::Take {
        who: 1,
        c: 0,
        to: 1,
        a: 5,
    }),
    Call::Act(Action::Pay {
        who: 1,
        c: 0,
        to: 0,
        a: 95,
    }),
    Call::Act(Action::Settle { who: 1, c: 0 }),
    Call::Act(Action::Mint {
        who: 1,
        to: 1,
        c: 0,
        a: 45,
    }),
    Call::Act(Action::Hand {
        caller: 3,
        from: 1,
        to: 2,
        c: 0,
        a: 20,
    }),
    Call::Act(Action::Hand {
        caller: 4,
        from: 1,
        to: 2,
        c: 0,
        a: 20,
    }),
    Call::Act(Action::Burn {
        who: 2,
        from: 2,
        c: 0,
        a: 20,
    }),
    Call::Act(Action::Take {
        who: 2,
        c: 0,
        to: 2,
        a: 20,
    }),
    Call::Close,
    Call::Act(Action::Pay {
        who: 5,
        c: 1,
        to: 0,
        a: 1000,
    }),
    Call::Open,
    Call::Act(Action::Take {
        who: 1,
        c: 1,
        to: 1,
        a: 500,
    }),
    Call::Act(Action::Hand {
        caller: 1,
        from: 1,
        to: 4,
        c: 0,
        a: 25,
    }),
    Call::Close,
    Call::Open,
    Call::Act(Action::Take {
        who: 1,
        c: 1,
        to: 1,
        a: 20000,
    }),
    Call::Act(Action::Clear { who: 1, c: 0, a: 5 }),
    Call::Act(Action::Sync { c: 2 }),
    Call::Act(Action::Mint {
        who: 1,
        to: 16,
        c: 0,
        a: 0,
    }),
    Call::Keep,
    Call::Close,
];

// The calls as lines, each with a place for its reply.
fn script() -> [Line; 33] {
    CALLS.map(|call| Line {
        call,
        reply: Ok(Answer::Done),
    })
}

// The parts of the balance equation in one currency.
fn show_parts<T: TokenBank, H: HookBank>(
    rt: &HostRuntime,
    vault: &Vault<T, H>,
    c: Currency,
    stray: i64,
) -> io::Result<()> {
    let balance = vault.balance(c).unwrap_or(0);
    let book = vault.book();
    let pools = pools_in(book, c);
    let claims = claims_in(book, c);
    let deltas = deltas_in(book, c);
    println!(rt;
        "  currency {}: balance {balance} = pools {pools} + claims {claims} + deltas {deltas} + stray {stray}",
        c.number
    )
}

pub fn show(rt: &HostRuntime) -> Result<(), Stop> {
    let rows = [
        OPENING, NOTHING, NOTHING, NOTHING, NOTHING, NOTHING, NOTHING, NOTHING,
    ];
    let tokens = Beside::new(Ledger::plain(1, rows)?, Ledger::levy(1, rows, 100)?);
    let mut lines = script();
    let vault = run(tokens, Hook::open(15)?, &mut lines).wind_up();
    println!(rt; "Sessions (currency 0 plain, currency 1 with a levy of 100 ten-thousandths)")?;
    for line in lines {
        println!(rt; "  {line}")?;
    }
    for number in 0..2 {
        if let Ok(c) = vault.currency(number) {
            show_parts(rt, &vault, c, stray_after(OPENING[0], &lines, number))?;
        }
    }
    Ok(())
}
