// Pools on a store of their own: made, filled, exchanged with and emptied. The journal is forgotten before each call, so it has room.
use crate::stop::Stop;
use faults::VaultFault;
use figures::{ExampleCurves, example_curves};
use hooks::{Beside, Hook};
use routes::RouteFault;
use std::{fmt, io};
use store::Store;
use tokens::Ledger;

// A store with the curves of its pools.
#[derive(Drop)]
struct Market {
    store: Store<Ledger, Beside<Hook, Hook>>,
    curves: ExampleCurves,
}

fn one(
    rt: &HostRuntime,
    call: impl fmt::Display + Drop,
    answer: Result<u32, VaultFault>,
) -> io::Result<()> {
    match answer {
        Ok(n) => println!(rt; "  {call} -> {n}"),
        Err(fault) => println!(rt; "  {call} -> refused: {}", fault.report()),
    }
}

fn two<N: fmt::Display + Drop>(
    rt: &HostRuntime,
    call: impl fmt::Display + Drop,
    answer: Result<(N, N), VaultFault>,
) -> io::Result<()> {
    match answer {
        Ok((a, b)) => println!(rt; "  {call} -> {a} and {b}"),
        Err(fault) => println!(rt; "  {call} -> refused: {}", fault.report()),
    }
}

fn listed(
    rt: &HostRuntime,
    m: &mut Market,
    c0: u32,
    c1: u32,
    curve: u32,
    hook: u32,
) -> io::Result<()> {
    m.store.forget();
    let answer = pools::pool(&mut m.store, &m.curves, c0, c1, curve, hook);
    one(rt, format_args!("pool {c0} {c1} {curve} {hook}"), answer)
}

fn seeded(rt: &HostRuntime, m: &mut Market, who: u32, pool: u32, a: u32, b: u32) -> io::Result<()> {
    m.store.forget();
    let answer = pools::seed(&mut m.store, who, pool, a, b);
    one(rt, format_args!("seed {who} {pool} {a} {b}"), answer)
}

fn added(rt: &HostRuntime, m: &mut Market, who: u32, pool: u32, shares: u32) -> io::Result<()> {
    m.store.forget();
    let answer = pools::add(&mut m.store, who, pool, shares);
    two(rt, format_args!("add {who} {pool} {shares}"), answer)
}

fn removed(rt: &HostRuntime, m: &mut Market, who: u32, pool: u32, shares: u32) -> io::Result<()> {
    m.store.forget();
    let answer = pools::remove(&mut m.store, who, pool, shares);
    two(rt, format_args!("remove {who} {pool} {shares}"), answer)
}

fn swapped(
    rt: &HostRuntime,
    m: &mut Market,
    who: u32,
    pool: u32,
    direction: u32,
    a: u32,
) -> io::Result<()> {
    m.store.forget();
    let answer = trades::swap(&mut m.store, &m.curves, who, pool, direction, a);
    two(
        rt,
        format_args!("swap {who} {pool} {direction} {a}"),
        answer,
    )
}

fn wanted(
    rt: &HostRuntime,
    m: &mut Market,
    who: u32,
    pool: u32,
    direction: u32,
    b: u32,
) -> io::Result<()> {
    m.store.forget();
    let answer = trades::want(&mut m.store, &m.curves, who, pool, direction, b);
    two(
        rt,
        format_args!("want {who} {pool} {direction} {b}"),
        answer,
    )
}

// Through pools 0 and 1.
fn routed(
    rt: &HostRuntime,
    m: &mut Market,
    who: u32,
    c: u32,
    a: u32,
    least: u32,
) -> io::Result<()> {
    m.store.forget();
    match routes::route(&mut m.store, &m.curves, who, c, a, least, &[0, 1]) {
        Ok(n) => println!(rt; "  route {who} {c} {a} {least} through 0 and 1 -> {n}"),
        Err(fault) => println!(rt;
            "  route {who} {c} {a} {least} through 0 and 1 -> refused: {}",
            fault.report()
        ),
    }
}

fn holdings(rt: &HostRuntime, m: &Market, pool: u32) -> io::Result<()> {
    match checks::pool(m.store.book(), pool) {
        Ok(made) => println!(rt;
            "  pool {pool} holds {} and {}, of {} shares",
            made.pool.x, made.pool.y, made.pool.total
        ),
        Err(_) => println!(rt; "  pool {pool} is not made"),
    }
}

pub fn show(rt: &HostRuntime) -> Result<(), Stop> {
    let tokens = Ledger::plain(3, [[0; 16]; 8])?;
    let hooks = Beside::new(Hook::toll(15, 100)?, Hook::volume(15, 1000, 0)?);
    let mut m = Market {
        store: Store::new(tokens, hooks),
        curves: example_curves()?,
    };
    println!(rt;
        "Pools (hook 0 a toll of 100 ten-thousandths, hook 1 a volume with a cap of 1000)"
    )?;
    listed(rt, &mut m, 0, 1, 0, 0)?;
    listed(rt, &mut m, 0, 1, 0, 0)?;
    listed(rt, &mut m, 1, 2, 1, 1)?;
    listed(rt, &mut m, 2, 1, 0, 0)?;
    swapped(rt, &mut m, 3, 0, 0, 1000)?;
    seeded(rt, &mut m, 1, 0, 1000, 1000)?;
    seeded(rt, &mut m, 1, 0, 10000, 40001)?;
    seeded(rt, &mut m, 1, 1, 5000, 5000)?;
    added(rt, &mut m, 2, 0, 1001)?;
    holdings(rt, &m, 0)?;
    swapped(rt, &mut m, 3, 0, 0, 1000)?;
    wanted(rt, &mut m, 3, 0, 1, 100)?;
    holdings(rt, &m, 0)?;
    routed(rt, &mut m, 3, 0, 100, 300)?;
    routed(rt, &mut m, 3, 0, 100, 400)?;
    routed(rt, &mut m, 3, 0, 1000, 0)?;
    routed(rt, &mut m, 3, 2, 100, 0)?;
    holdings(rt, &m, 0)?;
    holdings(rt, &m, 1)?;
    removed(rt, &mut m, 2, 0, 1002)?;
    removed(rt, &mut m, 2, 0, 1001)?;
    holdings(rt, &m, 0)?;
    Ok(())
}
