// The ready-made hooks: open, toll and volume.
ghost use Rattle.std.specs.Prelude.{◌≡◌, Ok, ◌==◌};
ghost use Rattle.amounts.specs.Checks.{need};
ghost use Rattle.hooks.specs.declared.bank.HookFault.TheVariants.{Unknown};
ghost use Rattle.hooks.specs.declared.rule.HookRule.TheVariants.{Open, Volume};
ghost use Rattle.hooks.specs.Ready.{Made, Tolls, of_hook, open_tests, toll_tests, volume_tests};
ghost use Rattle.hooks.specs.Lawfulness.{ready_lawful};

use crate::bank::{HookBank, HookFault};
use crate::hook::Hook;
use crate::passage::Passage;
use crate::rule::HookRule;
use amounts::{MOST, Rate};

// The reason for which a volume denies: a number, since every hook has reasons of its own.
const PAST_THE_CAP: u8 = 1;

// Why a hook is not made: no such payee, a rate or a cap that is too high, or a number above the cap.
#[derive(Clone, Copy, Debug)]
pub enum HookSetupFault {
    Payee,
    Rate,
    Cap,
    Number,
}

// A payee is 1 to 15.
fn check_payee(payee: u32) -> Result<(), HookSetupFault>
    ensures { result ≡ open_tests payee }
{
    if (1..=15).contains(&payee) {
        Ok(())
    } else {
        Err(HookSetupFault::Payee)
    }
}

// The one hook of a ready-made bank is hook 0.
fn check_hook(hook: u32) -> Result<(), HookFault>
    ensures { result ≡ need (hook == 0) Unknown (Ok tt) }
{
    if hook == 0 {
        Ok(())
    } else {
        Err(HookFault::Unknown)
    }
}

impl Hook {
    // Lets all through for nothing.
    pub fn open(payee: u32) -> Result<Hook, HookSetupFault>
        ensures { Made result (open_tests payee) (λ h. (h.rule ≡ Open) × (h.payee ≡ payee) × (h.number ≡ 0)) }
    {
        check_payee(payee)?;
        Ok(Hook {
            rule: HookRule::Open,
            payee,
            number: 0,
        })
    }

    // Takes its rate, in ten-thousandths, of what goes out.
    pub fn toll(payee: u32, rate: u32) -> Result<Hook, HookSetupFault>
        ensures { Made result (toll_tests payee rate) (λ h. Tolls h.rule rate × (h.payee ≡ payee) × (h.number ≡ 0)) }
    {
        check_payee(payee)?;
        let rate = Rate::new(rate).map_err(|_| HookSetupFault::Rate)?;
        Ok(Hook {
            rule: HookRule::Toll(rate),
            payee,
            number: 0,
        })
    }

    // Counts what comes in, from `number` on, and denies what would pass the cap.
    pub fn volume(payee: u32, cap: u32, number: u32) -> Result<Hook, HookSetupFault>
        ensures { Made result (volume_tests payee «cap» number) (λ h. (h.rule ≡ Volume «cap») × (h.payee ≡ payee) × (h.number ≡ number)) }
    {
        check_payee(payee)?;
        if cap > MOST {
            return Err(HookSetupFault::Cap);
        }
        if number > cap {
            return Err(HookSetupFault::Number);
        }
        Ok(Hook {
            rule: HookRule::Volume(cap),
            payee,
            number,
        })
    }
}

impl HookBank for Hook {
    ghost meaning = { of_hook };

    ghost lawful = { λ s. ready_lawful s.rule s.payee s.number s.sound };

    fn count(&self) -> u32 {
        1
    }

    fn payee(&self, hook: u32) -> Result<u32, HookFault> {
        check_hook(hook)?;
        Ok(self.payee)
    }

    fn ask(&self, p: Passage) -> Result<u32, HookFault> {
        check_hook(p.hook)?;
        match self.rule {
            HookRule::Open => Ok(0),
            HookRule::Toll(rate) => Ok(rate.part_of(p.output)),
            HookRule::Volume(cap) if p.input <= cap - self.number => Ok(0),
            HookRule::Volume(_) => Err(HookFault::Denied(PAST_THE_CAP)),
        }
    }

    fn tell(&mut self, p: Passage) -> Result<(), HookFault> {
        check_hook(p.hook)?;
        // The other rules have one legal number, which stays.
        if let HookRule::Volume(cap) = self.rule
            && p.input <= cap - self.number
        {
            self.number += p.input;
        }
        Ok(())
    }

    fn number(&self, hook: u32) -> Result<u32, HookFault> {
        check_hook(hook)?;
        Ok(self.number)
    }

    fn set(&mut self, hook: u32, number: u32) -> Result<(), HookFault> {
        check_hook(hook)?;
        let legal = match self.rule {
            HookRule::Open | HookRule::Toll(_) => number == 0,
            HookRule::Volume(cap) => number <= cap,
        };
        if !legal {
            return Err(HookFault::Illegal);
        }
        self.number = number;
        Ok(())
    }
}
