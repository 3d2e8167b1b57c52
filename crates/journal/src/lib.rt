// A journal of any kind of entry: undone from the last, an entry gives back what held before it was written.
#![tactic(auto)]

ghost use Rattle.std.specs.Prelude.{◌≡◌};
ghost use Rattle.journal.specs.Rewound.{rewound};

// A state that can take back what an entry records.
pub trait Undo<E> {
    ghost Model: { Type 0 };

    ghost model: { Self → Model };

    ghost undone: { Model → E → Model };

    fn undo(&mut self, entry: &E)
        ensures { model self.new ≡ undone (model self.old) entry.now };
}

// Undoes a part of the journal, from its last entry to its first.
pub fn rewind<E, W: Undo<E>>(state: &mut W, entries: &[E])
    ensures { W.model state.new ≡ rewound W.undone (W.model state.old) entries.now }
{
    for entry in entries.iter().rev() {
        state.undo(entry);
    }
}
