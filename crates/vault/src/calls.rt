// Every call on tokens, debts and claims.
ghost use Rattle.std.specs.Prelude.{◌≡◌};
ghost use Rattle.vault.specs.declared.call.Call.TheVariants.{Act as act_call};
ghost use Rattle.vault.specs.State.{state};
ghost use Rattle.vault.specs.Turns.{turn};

use crate::call::Call;
use crate::vault::Vault;
use actions::Action;
use faults::VaultFault;
use hooks::HookBank;
use store::Answer;
use tokens::TokenBank;

impl<T: TokenBank, H: HookBank> Vault<T, H> {
    pub fn act(&mut self, action: Action) -> Result<Answer, VaultFault>
        ensures answers { result ≡ (turn (state T.TokenBank.meaning H.HookBank.meaning self.old) (act_call action)).answer }
        ensures leaves { state T.TokenBank.meaning H.HookBank.meaning self.new ≡ (turn (state T.TokenBank.meaning H.HookBank.meaning self.old) (act_call action)).left }
    {
        self.meet(Call::Act(action))?;
        self.perform(action)
    }
}
