// A new vault.
ghost use Rattle.std.specs.Prelude.{◌≡◌};
ghost use Rattle.vault.specs.State.{state};
ghost use Rattle.vault.specs.Turns.{new_state};

use crate::vault::Vault;
use hooks::HookBank;
use store::Store;
use tokens::TokenBank;

impl<T: TokenBank, H: HookBank> Vault<T, H> {
    pub fn new(tokens: T, hooks: H) -> Self
        ensures { state T.TokenBank.meaning H.HookBank.meaning result ≡ new_state (T.TokenBank.meaning tokens) (H.HookBank.meaning hooks) }
    {
        Vault {
            store: Store::new(tokens, hooks),
            frames: None,
        }
    }
}
