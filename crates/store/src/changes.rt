// Changes that are recorded.
ghost use Rattle.std.specs.Prelude.{◌≡◌, ◌+◌, ◌<◌, ◌≤◌, true, false, length, take, MatchResult, nat_lt};
ghost use Rattle.checks.specs.Tests.{is_currency};
ghost use Rattle.faults.specs.declared.cause.Cause.TheVariants.{Currency as no_currency};
ghost use Rattle.book.specs.Cells.{written};
ghost use Rattle.hooks.specs.declared.bank.HookFault.TheVariants.{Unknown as unknown};
ghost use Rattle.hooks.specs.Meaning.{known, known_answer, ask_answer, told};
ghost use Rattle.tokens.specs.Moves.{balance_answer, transfer_answer, after_transfer};
ghost use Rattle.tokens.specs.Meaning.{moved};
ghost use Rattle.store.specs.Saved.{world, recorded, saved, Kept, Changed};
ghost use Rattle.store.specs.World.{with_book, with_tokens, with_hooks, all_written, entries};

use crate::entry::Entry;
use crate::state::Store;
use book::{Account, Book, Cell, Currency};
use checks::currency;
use faults::Cause;
use hooks::{HookBank, HookFault, Passage};
use journal::rewind;
use tokens::{TokenBank, TokenFault, Transfer};

impl<T: TokenBank, H: HookBank> Store<T, H> {
    pub fn book(&self) -> &Book
        ensures { result.now ≡ self.now.held.book }
    {
        &self.held.book
    }

    // How many entries the journal has.
    pub fn len(&self) -> usize
        ensures { result ≡ recorded self.now }
    {
        self.log.len()
    }

    // A currency that the token bank has.
    pub fn currency(&self, number: u32) -> Result<Currency, Cause>
        ensures { MatchResult result
            (λ c. (c.number ≡ number) × (is_currency (T.TokenBank.meaning self.now.held.tokens).count number ≡ true))
            (λ f. (f ≡ no_currency) × (is_currency (T.TokenBank.meaning self.now.held.tokens).count number ≡ false)) }
    {
        currency(self.held.tokens.count(), number)
    }

    // Whether the hook bank has such a hook.
    pub fn has_hook(&self, number: u32) -> bool
        ensures { result ≡ nat_lt number (H.HookBank.meaning self.now.held.hooks).count }
    {
        number < self.held.hooks.count()
    }

    // The vault's own balance.
    pub fn balance(&self, c: Currency) -> Result<u32, TokenFault>
        ensures { result ≡ balance_answer (T.TokenBank.meaning self.now.held.tokens) c.number 0 }
    {
        self.held.tokens.balance(c.number, 0)
    }

    // What a hook says to a passage.
    pub fn ask(&self, p: Passage) -> Result<u32, HookFault>
        ensures { result ≡ ask_answer (H.HookBank.meaning self.now.held.hooks) p.hook p.input p.output }
    {
        self.held.hooks.ask(p)
    }

    // Whose claims a hook's tolls are.
    pub fn payee(&self, hook: u32) -> Result<Account, HookFault>
        ensures { MatchResult result
            (λ a. (known (H.HookBank.meaning self.now.held.hooks) hook ≡ true) × (a.number ≡ (H.HookBank.meaning self.now.held.hooks).payee hook))
            (λ f. (known (H.HookBank.meaning self.now.held.hooks) hook ≡ false) × (f ≡ unknown)) }
    {
        let number = self.held.hooks.payee(hook)?;
        Ok(Account { number })
    }

    // Writes a cell of the book.
    fn write(&mut self, cell: Cell)
        requires { recorded self.old < 390 }
        ensures { Changed T.TokenBank.meaning H.HookBank.meaning self.old self.new 1
            (with_book (world T.TokenBank.meaning H.HookBank.meaning self.old.held) (written self.old.held.book cell)) }
    {
        let old = self.held.book.write(cell);
        self.log.push(Entry::Cell(old));
    }

    // Writes cells of the book, one after the other.
    pub fn commit(&mut self, cells: &[Cell])
        requires { recorded self.old + length cells.now ≤ 390 }
        ensures { Changed T.TokenBank.meaning H.HookBank.meaning self.old self.new (length cells.now)
            (with_book (world T.TokenBank.meaning H.HookBank.meaning self.old.held) (all_written self.old.held.book cells.now)) }
    {
        for cell in cells {
            self.write(*cell);
        }
    }

    // Moves tokens; a refused move records nothing.
    pub fn transfer(&mut self, t: Transfer) -> Result<u32, TokenFault>
        requires { recorded self.old < 390 }
        ensures answers { result ≡ transfer_answer (T.TokenBank.meaning self.old.held.tokens) t.currency t.from t.to t.amount }
        ensures leaves { Changed T.TokenBank.meaning H.HookBank.meaning self.old self.new (entries result)
            (with_tokens (world T.TokenBank.meaning H.HookBank.meaning self.old.held) (after_transfer (T.TokenBank.meaning self.old.held.tokens) t.currency t.from t.to t.amount)) }
    {
        let arrived = self.held.tokens.transfer(t)?;
        self.log.push(Entry::Move(t));
        Ok(arrived)
    }

    // Moves tokens and writes cells; where the move is refused, neither.
    pub fn transfer_with(&mut self, t: Transfer, cells: &[Cell]) -> Result<u32, TokenFault>
        requires { recorded self.old + 1 + length cells.now ≤ 390 }
        ensures answers { result ≡ transfer_answer (T.TokenBank.meaning self.old.held.tokens) t.currency t.from t.to t.amount }
        ensures leaves { MatchResult result
            (λ _. Changed T.TokenBank.meaning H.HookBank.meaning self.old self.new (1 + length cells.now)
            (with_book (with_tokens (world T.TokenBank.meaning H.HookBank.meaning self.old.held) (moved (T.TokenBank.meaning self.old.held.tokens) t.currency t.from t.to t.amount)) (all_written self.old.held.book cells.now)))
            (λ _. Changed T.TokenBank.meaning H.HookBank.meaning self.old self.new 0 (world T.TokenBank.meaning H.HookBank.meaning self.old.held)) }
    {
        let arrived = self.transfer(t)?;
        self.commit(cells);
        Ok(arrived)
    }

    // Tells a hook; an unknown hook is refused, and nothing is recorded.
    pub fn tell(&mut self, p: Passage) -> Result<(), HookFault>
        requires { recorded self.old < 390 }
        ensures answers { result ≡ known_answer (H.HookBank.meaning self.old.held.hooks) p.hook }
        ensures leaves { Changed T.TokenBank.meaning H.HookBank.meaning self.old self.new (entries result)
            (with_hooks (world T.TokenBank.meaning H.HookBank.meaning self.old.held) (told (H.HookBank.meaning self.old.held.hooks) p.hook p.input p.output)) }
    {
        let old = self.held.hooks.number(p.hook)?;
        self.held.hooks.tell(p)?;
        self.log.push(Entry::Number(p.hook, old));
        Ok(())
    }

    // Restores what held when the journal had n entries.
    pub fn rewind_to(&mut self, n: usize)
        requires { n ≤ recorded self.old }
        ensures now { world T.TokenBank.meaning H.HookBank.meaning self.new.held ≡ saved T.TokenBank.meaning H.HookBank.meaning self.old n }
        ensures shorter { recorded self.new ≡ n }
        ensures log { self.new.log.items ≡ take n self.old.log.items }
        ensures kept { Kept T.TokenBank.meaning H.HookBank.meaning self.old self.new n }
    {
        let later = &self.log.as_slice()[n..];
        rewind(&mut self.held, later);
        self.log.truncate(n);
    }
}
