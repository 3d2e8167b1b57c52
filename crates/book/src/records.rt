// The plain records. They know nothing of sessions, of the journal or of the banks.
use crate::ids::Currency;

// What a pool is made with, and keeps.
#[derive(Clone, Copy, PartialEq, Eq)]
pub struct Terms {
    pub c0: Currency,
    pub c1: Currency,
    pub curve: u32,
    pub hook: u32,
}

// What it holds of c0 and of c1, and all its shares, those that belong to nobody among them.
#[derive(Clone, Copy)]
pub struct Pool {
    pub terms: Terms,
    pub x: u32,
    pub y: u32,
    pub total: u32,
}

// By pool; a pool that is not made yet is None. A struct of its own, to be lent whole to what changes a pool.
#[derive(Clone, Copy)]
pub struct Pools {
    pub rows: [Option<Pool>; 8],
}

// The vault's balance in one currency at a `sync`.
#[derive(Clone, Copy)]
pub struct Mark {
    pub currency: u32,
    pub balance: u32,
}

// What one owner allows, by spender and currency.
#[derive(Clone, Copy)]
pub struct Allowed {
    pub rows: [[u32; 8]; 16],
}

// Tables of fixed size, each by two numbers or three of its own: no record holds a row of several.
#[derive(Clone, Copy)]
pub struct Book {
    pub pools: Pools,
    // by pool and account
    pub shares: [[u32; 16]; 8],
    // by account and currency
    pub claims: [[u32; 8]; 16],
    // by owner
    pub allowances: [Allowed; 16],
    // by owner and spender
    pub operators: [[bool; 16]; 16],
    // by account and currency, above 0 where the vault owes the account
    pub deltas: [[i64; 8]; 16],
    // from a `sync` to a `settle`
    pub mark: Option<Mark>,
    pub steps: u32,
}
