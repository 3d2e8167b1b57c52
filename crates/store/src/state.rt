// All that a restore gives back, and the journal by which it does.
use crate::entry::Entry;
use arrayvec::ArrayVec;
use book::Book;

#[derive(Drop)]
pub struct Held<T, H> {
    pub(crate) book: Book,
    pub(crate) tokens: T,
    pub(crate) hooks: H,
}

// The journal's entries lie in order of writing. No model stands for a store in clauses: what banks mean are functions, and a model's
// value must be data.
#[derive(Drop)]
pub struct Store<T, H> {
    pub(crate) held: Held<T, H>,
    pub(crate) log: ArrayVec<Entry, 390>,
}
