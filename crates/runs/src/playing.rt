// A new vault, and a list of calls on it.
ghost use Rattle.std.specs.Prelude.{◌≡◌};
ghost use Rattle.runs.specs.Played.{played, calls_of};
ghost use Rattle.runs.specs.History.{history, after_all};
ghost use Rattle.runs.specs.Law.{Law, told_new};
ghost use Rattle.vault.specs.State.{state};
ghost use Rattle.vault.specs.Turns.{new_state};

use crate::desk::Desk;
use crate::line::Line;
use hooks::HookBank;
use tokens::TokenBank;
use vault::Vault;

impl<T: TokenBank, H: HookBank> Desk<T, H> {
    // A new vault has given out no slip.
    fn new(tokens: T, hooks: H) -> Self
        ensures { state T.TokenBank.meaning H.HookBank.meaning result.vault ≡ new_state (T.TokenBank.meaning tokens) (H.HookBank.meaning hooks) }
    {
        Desk {
            vault: Vault::new(tokens, hooks),
            slips: None,
        }
    }
}

// Makes a new vault over the banks, makes the calls of the lines in order, and writes the reply of each into its line.
pub fn run<T: TokenBank, H: HookBank>(tokens: T, hooks: H, lines: &mut [Line]) -> Desk<T, H>
    ensures replies { lines.new ≡ played (new_state (T.TokenBank.meaning tokens) (H.HookBank.meaning hooks)) lines.old }
    ensures leaves { state T.TokenBank.meaning H.HookBank.meaning result.vault ≡ after_all (new_state (T.TokenBank.meaning tokens) (H.HookBank.meaning hooks)) (calls_of lines.old) }
    ensures law { Law (new_state (T.TokenBank.meaning tokens) (H.HookBank.meaning hooks)).now (told_new (new_state (T.TokenBank.meaning tokens) (H.HookBank.meaning hooks)).now) (history (new_state (T.TokenBank.meaning tokens) (H.HookBank.meaning hooks)) (calls_of lines.old)) }
{
    let mut desk = Desk::new(tokens, hooks);
    for line in lines {
        desk.play(line);
    }
    desk
}
