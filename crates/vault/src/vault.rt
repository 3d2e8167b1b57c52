// The vault: its store, and where the journal stood when each frame of an open session began.
ghost use Rattle.std.specs.Prelude.{◌≡◌, true, ◌∷◌};
ghost use Rattle.store.specs.Saved.{recorded};
ghost use Rattle.vault.specs.Marks.{at_rest, nested, ends, all_fit};

use arrayvec::ArrayVec;
use store::Store;

#[derive(Drop)]
pub struct Vault<T, H> {
    pub(crate) store: Store<T, H>,
    // the outermost frame's mark first; None where the vault is locked
    pub(crate) frames: Option<ArrayVec<usize, 4>>,
    ghost nested: { nested frames ≡ true },
    ghost rests: { at_rest frames (recorded store) ≡ true },
    // the journal has room for all steps that are left, now and after every restore
    ghost fit: { all_fit store (recorded store) (recorded store ∷ ends frames) ≡ true },
}
