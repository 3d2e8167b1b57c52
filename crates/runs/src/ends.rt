// What is still open after a run, given up.
ghost use Rattle.std.specs.Prelude.{◌≡◌};
ghost use Rattle.runs.specs.History.{winding, given_up};
ghost use Rattle.vault.specs.State.{state};
ghost use Rattle.vault.specs.Turns.{failed};

use crate::desk::Desk;
use hooks::HookBank;
use tokens::TokenBank;
use vault::{Call, Vault};

// Every frame dropped, and the session abandoned.
fn winding() -> [Call; 5]
    ensures { result ≡ winding }
{
    [
        Call::Drop,
        Call::Drop,
        Call::Drop,
        Call::Drop,
        Call::Abandon,
    ]
}

impl<T: TokenBank, H: HookBank> Desk<T, H> {
    fn give_up(&mut self)
        ensures { state T.TokenBank.meaning H.HookBank.meaning self.new.vault ≡ given_up (state T.TokenBank.meaning H.HookBank.meaning self.old.vault) }
    {
        for call in winding() {
            let _ = self.turn(call);
        }
    }

    // Gives up what is still open; a locked vault stays as it is.
    pub fn wind_up(self) -> Vault<T, H>
        ensures { state T.TokenBank.meaning H.HookBank.meaning result ≡ failed (state T.TokenBank.meaning H.HookBank.meaning self.vault) }
    {
        let mut desk = self;
        desk.give_up();
        let Desk { vault, slips } = desk;
        match slips {
            None => vault,
            Some(slips) => unreachable(),
        }
    }
}
