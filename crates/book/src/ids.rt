// Numbers that were tested: with one of these no later line can miss the test or mix two numbers up. Three types, and not one with its
// bound as a parameter: currencies and pools have the same bound. They are made by the tests, which know the bank's count and the fault.
ghost use Rattle.std.specs.Prelude.{◌<◌};

// An account, 0 to 15; 0 is the vault itself.
#[derive(Clone, Copy, PartialEq, Eq)]
pub struct Account {
    pub number: u32,
    ghost within: { number < 16 },
}

// A currency, 0 to 7.
#[derive(Clone, Copy, PartialEq, Eq)]
pub struct Currency {
    pub number: u32,
    ghost within: { number < 8 },
}

// A pool, 0 to 7.
#[derive(Clone, Copy, PartialEq, Eq)]
pub struct PoolId {
    pub number: u32,
    ghost within: { number < 8 },
}
