// The struct stands in a file of its own: its ghost fields import every `ghost use` of the file.
ghost use Rattle.std.specs.Prelude.{◌≡◌, ◌≤◌};
ghost use Rattle.tokens.specs.Ledgers.{Shaped, Bounded};

use crate::supply::Supply;
use amounts::Rate;

// The books of up to eight currencies, with one levy for all of them; a plain ledger has a levy of 0.
#[derive(Drop)]
pub struct Ledger {
    // of so many it answers; no vector of so many, which would mean 0 past them where the opening's contract says what its rows hold
    pub(crate) count: u32,
    pub(crate) rate: Rate,
    pub(crate) supplies: [Supply; 8],
    ghost few: { count ≤ 8 },
    ghost shaped: { Shaped supplies },
    ghost bounded: { Bounded count supplies },
}
