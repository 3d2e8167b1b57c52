// A currency's stray, told from the calls and their replies alone.
use actions::Action;
use arrayvec::ArrayVec;
use faults::{Cause, VaultFault};
use runs::Line;
use store::Answer;
use vault::Call;

// The stray now, and at the beginning of the session and of each of its up to four frames.
#[derive(Drop)]
struct Strays {
    now: i64,
    begun: ArrayVec<i64, 5>,
}

// What an accepted action adds.
fn added(action: Action, answered: u32, currency: u32) -> i64 {
    match action {
        Action::Settle { who: _, c } if c == currency => -(answered as i64),
        Action::Pay {
            who: _,
            c,
            to: 0,
            a: _,
        } if c == currency => answered as i64,
        Action::Clear { who: _, c, a } if c == currency => a as i64,
        _ => 0,
    }
}

impl Strays {
    fn begin(&mut self) {
        if !self.begun.is_full() {
            self.begun.push(self.now);
        }
    }

    fn accepted(&mut self, call: Call, answered: u32, currency: u32) {
        match call {
            Call::Open | Call::Frame => self.begin(),
            Call::Close => self.begun.clear(),
            Call::Abandon => self.fail(),
            Call::Keep => {
                self.begun.pop();
            }
            Call::Drop => {
                if let Some(begun) = self.begun.pop() {
                    self.now = begun;
                }
            }
            Call::Act(action) => {
                self.now = self.now.saturating_add(added(action, answered, currency));
            }
        }
    }

    // The session's calls stand no more.
    fn fail(&mut self) {
        if let Some(begun) = self.begun.first() {
            self.now = *begun;
        }
        self.begun.clear();
    }
}

pub fn stray_after(start: u32, lines: &[Line], currency: u32) -> i64 {
    let mut strays = Strays {
        now: start as i64,
        begun: ArrayVec::new(),
    };
    for line in lines {
        match (line.call, line.reply) {
            (call, Ok(Answer::Done)) => strays.accepted(call, 0, currency),
            (call, Ok(Answer::Amount(n))) => strays.accepted(call, n, currency),
            (
                Call::Close,
                Err(
                    VaultFault {
                        cause: Cause::DeltaOpen,
                        ..
                    },
                ),
            ) => strays.fail(),
            _ => {}
        }
    }
    strays.now
}
