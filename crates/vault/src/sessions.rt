// Sessions and frames.
ghost use Rattle.std.specs.Prelude.{◌≡◌, is_err};
ghost use Rattle.vault.specs.declared.call.Call.TheVariants.{Open as open_call, Close as close_call, Abandon as abandon_call, Frame as frame_call, Keep as keep_call, Drop as drop_call};
ghost use Rattle.vault.specs.Marks.{phase_of};
ghost use Rattle.vault.specs.Said.{given, taken, closed, slip_back};
ghost use Rattle.vault.specs.State.{state};
ghost use Rattle.vault.specs.Turns.{meets, turn};

use crate::call::Call;
use crate::slips::{Frame, NotClosed, Refused, Session};
use crate::vault::Vault;
use faults::{Cause, VaultFault};
use hooks::HookBank;
use tokens::TokenBank;
use totals::open_deltas;

impl<T: TokenBank, H: HookBank> Vault<T, H> {
    pub fn open(&mut self) -> Result<Session, VaultFault>
        ensures answers { given result ≡ (turn (state T.TokenBank.meaning H.HookBank.meaning self.old) open_call).answer }
        ensures leaves { state T.TokenBank.meaning H.HookBank.meaning self.new ≡ (turn (state T.TokenBank.meaning H.HookBank.meaning self.old) open_call).left }
    {
        self.meet(Call::Open)?;
        self.begin();
        Ok(Session { slip: () })
    }

    // A debt that is open undoes the session and spends the slip; it is given back only where the phase refuses.
    pub fn close(&mut self, session: Session) -> Result<(), NotClosed>
        ensures answers { closed result ≡ (turn (state T.TokenBank.meaning H.HookBank.meaning self.old) close_call).answer }
        ensures leaves { state T.TokenBank.meaning H.HookBank.meaning self.new ≡ (turn (state T.TokenBank.meaning H.HookBank.meaning self.old) close_call).left }
        ensures slip { slip_back result ≡ is_err (meets (phase_of self.old.frames) close_call) }
    {
        let Session { slip: () } = self.admit(Call::Close, session)?;
        if open_deltas(self.store.book()) != 0 {
            self.fail();
            return Err(NotClosed::Undone(VaultFault::from(Cause::DeltaOpen)));
        }
        self.finish();
        Ok(())
    }

    pub fn abandon(&mut self, session: Session) -> Result<(), Refused<Session>>
        ensures answers { taken result ≡ (turn (state T.TokenBank.meaning H.HookBank.meaning self.old) abandon_call).answer }
        ensures leaves { state T.TokenBank.meaning H.HookBank.meaning self.new ≡ (turn (state T.TokenBank.meaning H.HookBank.meaning self.old) abandon_call).left }
    {
        let Session { slip: () } = self.admit(Call::Abandon, session)?;
        self.fail();
        Ok(())
    }

    // As `open`, with a slip of another type: that they are two is what slips are for.
    pub fn frame(&mut self) -> Result<Frame, VaultFault>
        ensures answers { given result ≡ (turn (state T.TokenBank.meaning H.HookBank.meaning self.old) frame_call).answer }
        ensures leaves { state T.TokenBank.meaning H.HookBank.meaning self.new ≡ (turn (state T.TokenBank.meaning H.HookBank.meaning self.old) frame_call).left }
    {
        self.meet(Call::Frame)?;
        self.nest();
        Ok(Frame { slip: () })
    }

    pub fn keep(&mut self, frame: Frame) -> Result<(), Refused<Frame>>
        ensures answers { taken result ≡ (turn (state T.TokenBank.meaning H.HookBank.meaning self.old) keep_call).answer }
        ensures leaves { state T.TokenBank.meaning H.HookBank.meaning self.new ≡ (turn (state T.TokenBank.meaning H.HookBank.meaning self.old) keep_call).left }
    {
        let Frame { slip: () } = self.admit(Call::Keep, frame)?;
        self.merge();
        Ok(())
    }

    pub fn drop(&mut self, frame: Frame) -> Result<(), Refused<Frame>>
        ensures answers { taken result ≡ (turn (state T.TokenBank.meaning H.HookBank.meaning self.old) drop_call).answer }
        ensures leaves { state T.TokenBank.meaning H.HookBank.meaning self.new ≡ (turn (state T.TokenBank.meaning H.HookBank.meaning self.old) drop_call).left }
    {
        let Frame { slip: () } = self.admit(Call::Drop, frame)?;
        self.unnest();
        Ok(())
    }
}
