// Asking and telling each ready-made hook.
use crate::stop::Stop;
use hooks::{Beside, Hook, HookBank, HookFault, Passage};
use std::{fmt, io};

// One line: what a hook was asked, and its answer under a name, or why there is none.
fn line(
    rt: &HostRuntime,
    asked: impl fmt::Display + Drop,
    name: &str,
    answer: Result<u32, HookFault>,
) -> io::Result<()> {
    match answer {
        Ok(n) => println!(rt; "  {asked} -> {name} {n}"),
        Err(fault) => println!(rt; "  {asked} -> {fault}"),
    }
}

fn paid<H: HookBank>(rt: &HostRuntime, bank: &H, hook: u32) -> io::Result<()> {
    line(
        rt,
        format_args!("payee of hook {hook}"),
        "account",
        bank.payee(hook),
    )
}

fn asked<H: HookBank>(rt: &HostRuntime, bank: &H, p: Passage) -> io::Result<()> {
    line(rt, format_args!("ask {p}"), "toll", bank.ask(p))
}

fn told<H: HookBank>(rt: &HostRuntime, bank: &mut H, p: Passage) -> io::Result<()> {
    let number = bank.tell(p).and_then(|()| bank.number(p.hook));
    line(rt, format_args!("tell {p}"), "its number is", number)
}

fn set<H: HookBank>(rt: &HostRuntime, bank: &mut H, hook: u32, number: u32) -> io::Result<()> {
    let kept = bank.set(hook, number).and_then(|()| bank.number(hook));
    line(
        rt,
        format_args!("set hook {hook} to {number}"),
        "its number is",
        kept,
    )
}

pub fn show(rt: &HostRuntime) -> Result<(), Stop> {
    let tolled = Beside::new(Hook::open(15)?, Hook::toll(15, 50)?);
    let mut bank = Beside::new(tolled, Hook::volume(15, 1000, 0)?);
    println!(rt; "Hooks (0 open, 1 toll of 50 ten-thousandths, 2 volume with a cap of 1000)")?;
    for hook in 0..4u32 {
        paid(rt, &bank, hook)?;
        let passage = Passage {
            hook,
            input: 600,
            output: 9000,
        };
        asked(rt, &bank, passage)?;
        told(rt, &mut bank, passage)?;
        asked(rt, &bank, passage)?;
    }
    let smaller = Passage {
        hook: 2,
        input: 400,
        output: 1,
    };
    asked(rt, &bank, smaller)?;
    set(rt, &mut bank, 2, 1001)?;
    set(rt, &mut bank, 2, 0)?;
    set(rt, &mut bank, 1, 1)?;
    Ok(())
}
