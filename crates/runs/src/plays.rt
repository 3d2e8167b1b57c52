// One line of a run.
ghost use Rattle.std.specs.Prelude.{◌≡◌};
ghost use Rattle.runs.specs.Turned.{Turned};

use crate::desk::Desk;
use crate::line::Line;
use hooks::HookBank;
use tokens::TokenBank;

impl<T: TokenBank, H: HookBank> Desk<T, H> {
    // Makes the call of a line and writes its reply.
    pub(crate) fn play(&mut self, line: &mut Line)
        ensures plays { Turned T.TokenBank.meaning H.HookBank.meaning self.old.vault line.old.call self.new.vault line.new.reply }
        ensures stays { line.new.call ≡ line.old.call }
    {
        let reply = self.turn(line.call);
        line.reply = reply;
    }
}
