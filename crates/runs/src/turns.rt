// One call of a run, made with the slips at the desk. A call that takes in a slip is refused by the rules where there is none.
ghost use Rattle.std.specs.Prelude.{◌≡◌, Some, None};
ghost use Rattle.vault.specs.declared.call.Call.TheVariants.{Open as open_call, Close as close_call, Abandon as abandon_call, Frame as frame_call, Act as act_call};
ghost use Rattle.runs.specs.Turned.{Turned, ending};

use crate::desk::Desk;
use crate::slips::{Frames, Slips};
use actions::Action;
use faults::{Cause, VaultFault};
use hooks::HookBank;
use std::mem::replace;
use store::Answer;
use tokens::TokenBank;
use vault::{Call, NotClosed, Refused};

type Reply = Result<Answer, VaultFault>;

// How a frame ends. No closure that ends it: the desk's invariant would ask of it, for every vault, what the match shows of this one.
#[derive(Clone, Copy)]
enum FrameEnd {
    Keep,
    Drop,
}

// Slips are put only where none lie, since none may be let go.
fn put(place: &mut Option<Slips>, slips: Slips)
    requires { place.old ≡ None }
    ensures { place.new ≡ Some slips }
{
    match replace(place, Some(slips)) {
        None => {}
        Some(others) => unreachable(),
    }
}

// The vault stays where it lies, and the slips are taken from beside it and put back.
impl<T: TokenBank, H: HookBank> Desk<T, H> {
    fn open(&mut self) -> Reply
        ensures { Turned T.TokenBank.meaning H.HookBank.meaning self.old.vault open_call self.new.vault result }
    {
        let session = self.vault.open()?;
        let frames = Frames::None;
        put(&mut self.slips, Slips { session, frames });
        Ok(Answer::Done)
    }

    // Apart from `abandon`, since a closing has three ends: done, undone, and refused with the slip back.
    fn close(&mut self) -> Reply
        ensures { Turned T.TokenBank.meaning H.HookBank.meaning self.old.vault close_call self.new.vault result }
    {
        let Some(Slips { session, frames }) = self.slips.take() else {
            return Err(Cause::Locked.into());
        };
        match self.vault.close(session) {
            Ok(()) => {
                frames.none();
                Ok(Answer::Done)
            }
            Err(NotClosed::Undone(fault)) => {
                frames.none();
                Err(fault)
            }
            Err(NotClosed::Refused(Refused { fault, slip })) => {
                let session = slip;
                put(&mut self.slips, Slips { session, frames });
                Err(fault)
            }
        }
    }

    fn abandon(&mut self) -> Reply
        ensures { Turned T.TokenBank.meaning H.HookBank.meaning self.old.vault abandon_call self.new.vault result }
    {
        let Some(Slips { session, frames }) = self.slips.take() else {
            return Err(Cause::Locked.into());
        };
        match self.vault.abandon(session) {
            Ok(()) => {
                frames.none();
                Ok(Answer::Done)
            }
            Err(Refused { fault, slip }) => {
                let session = slip;
                put(&mut self.slips, Slips { session, frames });
                Err(fault)
            }
        }
    }

    fn frame(&mut self) -> Reply
        ensures { Turned T.TokenBank.meaning H.HookBank.meaning self.old.vault frame_call self.new.vault result }
    {
        let frame = self.vault.frame()?;
        match self.slips.take() {
            Some(Slips { session, frames }) => {
                let frames = frames.with(frame);
                put(&mut self.slips, Slips { session, frames });
                Ok(Answer::Done)
            }
            None => unreachable(),
        }
    }

    // The innermost frame, kept or dropped.
    fn end(&mut self, how: FrameEnd) -> Reply
        ensures { Turned T.TokenBank.meaning H.HookBank.meaning self.old.vault (ending how) self.new.vault result }
    {
        let Some(Slips { session, frames }) = self.slips.take() else {
            return Err(Cause::Locked.into());
        };
        match frames.innermost() {
            Err(frames) => {
                put(&mut self.slips, Slips { session, frames });
                Err(Cause::NoFrame.into())
            }
            Ok((frames, innermost)) => {
                let ended = match how {
                    FrameEnd::Keep => self.vault.keep(innermost),
                    FrameEnd::Drop => self.vault.drop(innermost),
                };
                match ended {
                    Ok(()) => {
                        put(&mut self.slips, Slips { session, frames });
                        Ok(Answer::Done)
                    }
                    Err(Refused { fault, slip }) => {
                        let frames = frames.with(slip);
                        put(&mut self.slips, Slips { session, frames });
                        Err(fault)
                    }
                }
            }
        }
    }

    fn act(&mut self, action: Action) -> Reply
        ensures { Turned T.TokenBank.meaning H.HookBank.meaning self.old.vault (act_call action) self.new.vault result }
    {
        self.vault.act(action)
    }

    // Any call. Calls are values, since a run is any list of them.
    pub(crate) fn turn(&mut self, call: Call) -> Reply
        ensures { Turned T.TokenBank.meaning H.HookBank.meaning self.old.vault call self.new.vault result }
    {
        match call {
            Call::Open => self.open(),
            Call::Close => self.close(),
            Call::Abandon => self.abandon(),
            Call::Frame => self.frame(),
            Call::Keep => self.end(FrameEnd::Keep),
            Call::Drop => self.end(FrameEnd::Drop),
            Call::Act(action) => self.act(action),
        }
    }
}
