// What one change took the place of.
ghost use Rattle.std.specs.Prelude.{◌≡◌};
ghost use Rattle.store.specs.declared.entry.Entry.TheVariants.{Number as number};

use book::Cell;
use tokens::Transfer;

#[derive(Clone, Copy)]
pub enum Entry {
    // a cell of the book with its old value
    Cell(Cell),
    Move(Transfer),
    // a hook and its old number
    Number(u32, u32),
}

// What stands in the free places of a journal: written out, since a derived default is of a variant that holds nothing.
impl Default for Entry {
    fn default() -> Entry
        ensures { result ≡ number 0 0 }
    {
        Entry::Number(0, 0)
    }
}
