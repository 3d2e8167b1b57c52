// Payments through a plain and a levy ledger side by side: what is sent arrives or is in the pot.
use crate::stop::Stop;
use std::io;
use tokens::{Beside, Ledger, TokenBank, Transfer, circulating};

// A million in each account but the vault's; a ledger reads as many rows as it has currencies.
fn opening() -> [[u32; 16]; 8] {
    let mut row = [1_000_000; 16];
    row[0] = 0;
    [row; 8]
}

fn sent(currency: u32, from: u32, to: u32, amount: u32) -> Transfer {
    Transfer {
        currency,
        from,
        to,
        amount,
    }
}

fn paid<T: TokenBank>(rt: &HostRuntime, bank: &mut T, t: Transfer) -> io::Result<()> {
    print!(rt; "  pay {t} -> ")?;
    match bank.transfer(t) {
        Ok(arrived) => println!(rt;
            "{arrived} arrived, {} went to the pot",
            t.amount.saturating_sub(arrived)
        ),
        Err(fault) => println!(rt; "refused: {fault}"),
    }
}

fn taken_back<T: TokenBank>(rt: &HostRuntime, bank: &mut T, t: Transfer) -> io::Result<()> {
    print!(rt; "  take back {t} -> ")?;
    match bank.unmove(t) {
        Ok(()) => println!(rt; "done"),
        Err(fault) => println!(rt; "refused: {fault}"),
    }
}

fn held<T: TokenBank>(rt: &HostRuntime, bank: &T, currency: u32) -> io::Result<()> {
    print!(rt; "  all accounts hold of currency {currency} -> ")?;
    match circulating(bank, currency) {
        Ok(sum) => println!(rt; "{sum}"),
        Err(fault) => println!(rt; "refused: {fault}"),
    }
}

pub fn show(rt: &HostRuntime) -> Result<(), Stop> {
    let plain = Ledger::plain(3, opening())?;
    let levy = Ledger::levy(1, opening(), 100)?;
    let mut bank = Beside::new(plain, levy);
    let levied = sent(3, 1, 0, 500);
    println!(rt; "Payments (currencies 0 to 2 plain, 3 with a levy of 100 ten-thousandths)")?;
    held(rt, &bank, 3)?;
    paid(rt, &mut bank, levied)?;
    held(rt, &bank, 3)?;
    taken_back(rt, &mut bank, levied)?;
    held(rt, &bank, 3)?;
    paid(rt, &mut bank, sent(0, 1, 2, 500))?;
    held(rt, &bank, 0)?;
    paid(rt, &mut bank, sent(0, 2, 3, 1000501))?;
    paid(rt, &mut bank, sent(0, 2, 2, 1))?;
    paid(rt, &mut bank, sent(0, 2, 3, 0))?;
    paid(rt, &mut bank, sent(0, 2, 16, 1))?;
    paid(rt, &mut bank, sent(4, 2, 3, 1))?;
    taken_back(rt, &mut bank, levied)?;
    Ok(())
}
