// Buying and pricing at each ready-made curve.
use crate::stop::Stop;
use curves::{Beside, CurveBank, CurveFault, Fee, Market, Product, Sum};
use std::io;

// Curve 0 in direction 0; every quote is at its holdings.
const FIRST: Market = Market {
    curve: 0,
    direction: 0,
    x: 4000,
    y: 9000,
};

fn said(rt: &HostRuntime, answer: Result<u32, CurveFault>) -> io::Result<()> {
    match answer {
        Ok(n) => println!(rt; "{n}"),
        Err(fault) => println!(rt; "{fault}"),
    }
}

// Both questions at one market.
fn asked<C: CurveBank>(rt: &HostRuntime, bank: &C, market: Market, n: u32) -> io::Result<()> {
    let direction = market.direction;
    print!(rt; "    direction {direction}: buy for {n} -> ")?;
    said(rt, bank.buy(market, n))?;
    print!(rt; "    direction {direction}: price of {n} -> ")?;
    said(rt, bank.price(market, n))
}

fn quoted<C: CurveBank>(rt: &HostRuntime, bank: &C, curve: u32, name: &str) -> io::Result<()> {
    println!(rt; "  curve {curve}, {name}")?;
    for direction in 0..2u32 {
        let market = Market {
            curve,
            direction,
            ..FIRST
        };
        for n in [1, 100, 1000, 9000] {
            asked(rt, bank, market, n)?;
        }
    }
    Ok(())
}

pub fn show(rt: &HostRuntime) -> Result<(), Stop> {
    let fees = Beside::new(Fee::new(Product, 30)?, Fee::new(Sum, 4)?);
    let bank = Beside::new(Beside::new(Product, Sum), fees);
    println!(rt;
        "Quotes of {} curves at holdings {} and {}",
        bank.count(),
        FIRST.x,
        FIRST.y
    )?;
    quoted(rt, &bank, 0, "product")?;
    quoted(rt, &bank, 1, "sum")?;
    quoted(rt, &bank, 2, "product under a fee of 30 ten-thousandths")?;
    quoted(rt, &bank, 3, "sum under a fee of 4 ten-thousandths")?;
    println!(rt; "  curve 4, which is unknown, and direction 2 of curve 0")?;
    let no_such_curve = Market { curve: 4, ..FIRST };
    let no_such_direction = Market {
        direction: 2,
        ..FIRST
    };
    asked(rt, &bank, no_such_curve, 100)?;
    asked(rt, &bank, no_such_direction, 100)?;
    Ok(())
}
