// Undoing one entry.
ghost use Rattle.store.specs.Saved.{world};
ghost use Rattle.store.specs.World.{World, undone as taken_back};

use crate::entry::Entry;
use crate::state::Held;
use hooks::HookBank;
use journal::Undo;
use tokens::TokenBank;

impl<T: TokenBank, H: HookBank> Undo<Entry> for Held<T, H> {
    ghost Model = { World };

    ghost model = { world T.TokenBank.meaning H.HookBank.meaning };

    ghost undone = { taken_back };

    fn undo(&mut self, entry: &Entry) {
        match *entry {
            Entry::Cell(cell) => {
                let _ = self.book.write(cell);
            }
            Entry::Move(transfer) => {
                let _ = self.tokens.unmove(transfer);
            }
            Entry::Number(h, n) => {
                let _ = self.hooks.set(h, n);
            }
        }
    }
}
