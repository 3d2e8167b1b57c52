// The phase of a vault, told from its marks.
ghost use Rattle.std.specs.Prelude.{◌≡◌};
ghost use Rattle.vault.specs.Marks.{phase_of};

use crate::phase::Phase;
use crate::vault::Vault;

impl<T, H> Vault<T, H> {
    pub(crate) fn phase(&self) -> Phase
        ensures { result ≡ phase_of self.now.frames }
    {
        match &self.frames {
            None => Phase::Locked,
            Some(marks) => match marks.len() {
                0 => Phase::Open,
                open => Phase::Framed(open as u32 - 1),
            },
        }
    }
}
