// A vault with the slips that it has given out and not taken back.
ghost use Rattle.std.specs.Prelude.{◌≡◌, true};
ghost use Rattle.runs.specs.Held.{held};
ghost use Rattle.vault.specs.Marks.{phase_of};

use crate::slips::Slips;
use vault::Vault;

pub struct Desk<T, H> {
    pub vault: Vault<T, H>,
    pub slips: Option<Slips>,
    ghost slipped: { held (phase_of vault.frames) slips ≡ true },
}
