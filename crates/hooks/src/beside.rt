// Two banks of hooks side by side.
ghost use Rattle.hooks.specs.Beside.{beside};
ghost use Rattle.hooks.specs.Pairs.{beside_lawful};

use crate::bank::{HookBank, HookFault};
use crate::passage::Passage;
use amounts::{Beside, Place, pair_count, place_of};

// Each operation finds its bank by a match: a closure for each bank would say the same two calls, and a contract of each besides.
impl<First: HookBank, Second: HookBank> HookBank for Beside<First, Second> {
    ghost meaning = { λ s. beside (First.HookBank.meaning s.first) (Second.HookBank.meaning s.second) };

    ghost lawful = { λ s. beside_lawful _ _ (First.HookBank.lawful s.first) (Second.HookBank.lawful s.second) };

    fn count(&self) -> u32 {
        pair_count(self.first.count(), self.second.count(), 4)
    }

    fn payee(&self, hook: u32) -> Result<u32, HookFault> {
        match place_of(hook, self.first.count(), 4).ok_or(HookFault::Unknown)? {
            Place::First(h) => self.first.payee(h),
            Place::Second(h) => self.second.payee(h),
        }
    }

    fn ask(&self, p: Passage) -> Result<u32, HookFault> {
        match place_of(p.hook, self.first.count(), 4).ok_or(HookFault::Unknown)? {
            Place::First(h) => self.first.ask(Passage { hook: h, ..p }),
            Place::Second(h) => self.second.ask(Passage { hook: h, ..p }),
        }
    }

    fn tell(&mut self, p: Passage) -> Result<(), HookFault> {
        match place_of(p.hook, self.first.count(), 4).ok_or(HookFault::Unknown)? {
            Place::First(h) => self.first.tell(Passage { hook: h, ..p }),
            Place::Second(h) => self.second.tell(Passage { hook: h, ..p }),
        }
    }

    fn number(&self, hook: u32) -> Result<u32, HookFault> {
        match place_of(hook, self.first.count(), 4).ok_or(HookFault::Unknown)? {
            Place::First(h) => self.first.number(h),
            Place::Second(h) => self.second.number(h),
        }
    }

    fn set(&mut self, hook: u32, number: u32) -> Result<(), HookFault> {
        match place_of(hook, self.first.count(), 4).ok_or(HookFault::Unknown)? {
            Place::First(h) => self.first.set(h, number),
            Place::Second(h) => self.second.set(h, number),
        }
    }
}
