// What every bank of hooks answers, and what its operations leave.
ghost use Rattle.std.specs.Prelude.{◌≡◌};
ghost use Rattle.hooks.specs.Laws.{Lawful};
ghost use Rattle.hooks.specs.Meaning.{Hooks, known_answer, payee_answer, ask_answer, number_answer, set_answer, told, after_set};

use crate::passage::Passage;

// Why an operation is refused: no such hook, the hook denies for a reason, or the number is none of its legal ones.
#[derive(Clone, Copy)]
pub enum HookFault {
    Unknown,
    Denied(u8),
    Illegal,
}

// A fixed count of hooks, numbered from 0. Each has a payee and rules that never change, and a number that does.
pub trait HookBank {
    ghost meaning: { Self → Hooks };

    fn count(&self) -> u32
        ensures { result ≡ (meaning self.now).count };

    fn payee(&self, hook: u32) -> Result<u32, HookFault>
        ensures { result ≡ payee_answer (meaning self.now) hook };

    // The toll, or the denial, at the hook's present number.
    fn ask(&self, p: Passage) -> Result<u32, HookFault>
        ensures { result ≡ ask_answer (meaning self.now) p.hook p.input p.output };

    // Always accepted of a known hook: its number makes a step, unless the hook would deny.
    fn tell(&mut self, p: Passage) -> Result<(), HookFault>
        ensures answers { result ≡ known_answer (meaning self.old) p.hook }
        ensures leaves { meaning self.new ≡ told (meaning self.old) p.hook p.input p.output };

    fn number(&self, hook: u32) -> Result<u32, HookFault>
        ensures { result ≡ number_answer (meaning self.now) hook };

    // Makes the number any legal one.
    fn set(&mut self, hook: u32, number: u32) -> Result<(), HookFault>
        ensures answers { result ≡ set_answer (meaning self.old) hook number }
        ensures leaves { meaning self.new ≡ after_set (meaning self.old) hook number };

    ghost lawful: { (s : Self) → Lawful (meaning s) };
}
