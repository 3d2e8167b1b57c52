// A new store over given banks, and a journal emptied.
ghost use Rattle.std.specs.Prelude.{◌≡◌};
ghost use Rattle.book.specs.New.{new_book};
ghost use Rattle.store.specs.Saved.{world, recorded};
ghost use Rattle.store.specs.World.{finished};

use crate::state::{Held, Store};
use arrayvec::ArrayVec;
use book::Book;
use hooks::HookBank;
use tokens::TokenBank;

impl<T: TokenBank, H: HookBank> Store<T, H> {
    pub fn new(tokens: T, hooks: H) -> Self
        ensures holds { world T.TokenBank.meaning H.HookBank.meaning result.held ≡ record { book = new_book; tokens = T.TokenBank.meaning tokens; hooks = H.HookBank.meaning hooks } }
        ensures empty { recorded result ≡ 0 }
    {
        Store {
            held: Held {
                book: Book::new(),
                tokens,
                hooks,
            },
            log: ArrayVec::new(),
        }
    }

    // Frees all entries: what was done stays done.
    pub fn forget(&mut self)
        ensures holds { self.new.held ≡ self.old.held }
        ensures empty { recorded self.new ≡ 0 }
    {
        self.log.clear();
    }

    // Ends a session: what was done stays done, the mark is empty and no step is counted.
    pub fn finish(&mut self)
        ensures holds { world T.TokenBank.meaning H.HookBank.meaning self.new.held ≡ finished (world T.TokenBank.meaning H.HookBank.meaning self.old.held) }
        ensures empty { recorded self.new ≡ 0 }
    {
        self.held.book.mark = None;
        self.held.book.steps = 0;
        self.forget();
    }
}
