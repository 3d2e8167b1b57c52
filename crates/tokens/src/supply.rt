// What there is of one currency: what each account holds, and the pot.
ghost use Rattle.std.specs.Prelude.{◌≡◌};
ghost use Rattle.tokens.specs.Ledgers.{fresh_supply};

#[derive(Clone, Copy)]
pub(crate) struct Supply {
    pub(crate) held: [u32; 16],
    pub(crate) pot: u32,
}

impl Supply {
    // With an empty pot.
    pub(crate) fn new(held: [u32; 16]) -> Self
        ensures { result ≡ fresh_supply held }
    {
        Supply { held, pot: 0 }
    }
}
