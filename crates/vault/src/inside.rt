// What the calls do once the phase has let them through.
ghost use Rattle.std.specs.Prelude.{◌≡◌, Ok as ok};
ghost use Rattle.vault.specs.declared.call.Call.TheVariants.{Open as open_call, Close as close_call, Abandon as abandon_call, Frame as frame_call, Keep as keep_call, Drop as drop_call, Act as act_call};
ghost use Rattle.vault.specs.Marks.{phase_of};
ghost use Rattle.vault.specs.Said.{admitted};
ghost use Rattle.vault.specs.State.{state};
ghost use Rattle.vault.specs.Turns.{meets, granted, failed, finishing};

use crate::call::Call;
use crate::phase::Phase;
use crate::slips::Refused;
use crate::vault::Vault;
use actions::{Action, act};
use arrayvec::ArrayVec;
use faults::{Cause, VaultFault};
use hooks::HookBank;
use store::Answer;
use tokens::TokenBank;

impl<T: TokenBank, H: HookBank> Vault<T, H> {
    // Every call meets the phase first.
    pub(crate) fn meet(&self, call: Call) -> Result<(), Cause>
        ensures { result ≡ meets (phase_of self.now.frames) call }
    {
        match (self.phase(), call) {
            (Phase::Locked, Call::Open) => Ok(()),
            (
                Phase::Locked,
                Call::Act(
                    Action::Pay { .. }
                    | Action::Hand { .. }
                    | Action::Allow { .. }
                    | Action::Operator { .. },
                ),
            ) => Ok(()),
            (Phase::Locked, _) => Err(Cause::Locked),
            (_, Call::Open) => Err(Cause::Session),
            (_, Call::Act(Action::Allow { .. } | Action::Operator { .. })) => Err(Cause::Session),
            (_, Call::Act(_)) => Ok(()),
            (Phase::Open, Call::Close | Call::Abandon | Call::Frame) => Ok(()),
            (Phase::Open, Call::Keep | Call::Drop) => Err(Cause::NoFrame),
            (Phase::Framed(_), Call::Close | Call::Abandon) => Err(Cause::FrameOpen),
            (Phase::Framed(inner), Call::Frame) if inner >= 3 => Err(Cause::FramesFull),
            (Phase::Framed(_), Call::Frame | Call::Keep | Call::Drop) => Ok(()),
        }
    }

    // The slip, where the phase lets the call through, and with the refusal where it doesn't.
    pub(crate) fn admit<S>(&self, call: Call, slip: S) -> Result<S, Refused<S>>
        ensures { result ≡ admitted (meets (phase_of self.now.frames) call) slip }
    {
        match self.meet(call) {
            Ok(()) => Ok(slip),
            Err(cause) => Err(Refused {
                fault: VaultFault::from(cause),
                slip,
            }),
        }
    }

    pub(crate) fn begin(&mut self)
        requires { meets (phase_of self.old.frames) open_call ≡ ok tt }
        ensures { state T.TokenBank.meaning H.HookBank.meaning self.new ≡ (granted (state T.TokenBank.meaning H.HookBank.meaning self.old) open_call).left }
    {
        self.frames = Some(ArrayVec::new());
    }

    // What was done stays done; `fail` takes it back.
    pub(crate) fn finish(&mut self)
        requires { meets (phase_of self.old.frames) close_call ≡ ok tt }
        ensures { state T.TokenBank.meaning H.HookBank.meaning self.new ≡ finishing (state T.TokenBank.meaning H.HookBank.meaning self.old) }
    {
        self.store.finish();
        self.frames = None;
    }

    // Restores what held at the opening.
    pub(crate) fn fail(&mut self)
        requires { meets (phase_of self.old.frames) abandon_call ≡ ok tt }
        ensures { state T.TokenBank.meaning H.HookBank.meaning self.new ≡ failed (state T.TokenBank.meaning H.HookBank.meaning self.old) }
    {
        self.store.rewind_to(0);
        self.frames = None;
    }

    // Begins a frame.
    pub(crate) fn nest(&mut self)
        requires { meets (phase_of self.old.frames) frame_call ≡ ok tt }
        ensures { state T.TokenBank.meaning H.HookBank.meaning self.new ≡ (granted (state T.TokenBank.meaning H.HookBank.meaning self.old) frame_call).left }
    {
        let mark = self.store.len();
        if let Some(marks) = &mut self.frames {
            marks.push(mark);
        }
    }

    // Ends the innermost frame, and leaves what was done in it.
    pub(crate) fn merge(&mut self)
        requires { meets (phase_of self.old.frames) keep_call ≡ ok tt }
        ensures { state T.TokenBank.meaning H.HookBank.meaning self.new ≡ (granted (state T.TokenBank.meaning H.HookBank.meaning self.old) keep_call).left }
    {
        if let Some(marks) = &mut self.frames {
            let _ = marks.pop();
        }
    }

    // Restores what held when the innermost frame began, and ends it.
    pub(crate) fn unnest(&mut self)
        requires { meets (phase_of self.old.frames) drop_call ≡ ok tt }
        ensures { state T.TokenBank.meaning H.HookBank.meaning self.new ≡ (granted (state T.TokenBank.meaning H.HookBank.meaning self.old) drop_call).left }
    {
        if let Some(marks) = &mut self.frames
            && let Some(mark) = marks.pop()
        {
            self.store.rewind_to(mark);
        }
    }

    pub(crate) fn perform(&mut self, action: Action) -> Result<Answer, VaultFault>
        requires { meets (phase_of self.old.frames) (act_call action) ≡ ok tt }
        ensures answers { result ≡ (granted (state T.TokenBank.meaning H.HookBank.meaning self.old) (act_call action)).answer }
        ensures leaves { state T.TokenBank.meaning H.HookBank.meaning self.new ≡ (granted (state T.TokenBank.meaning H.HookBank.meaning self.old) (act_call action)).left }
    {
        let session = self.frames.is_some();
        let answer = act(&mut self.store, session, action);
        if !session {
            self.store.forget();
        }
        answer
    }
}
