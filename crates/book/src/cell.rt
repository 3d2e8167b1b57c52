// A cell of the book with a value: what is to stand there, or what stood there.
use crate::ids::{Account, Currency, PoolId};
use crate::records::{Mark, Pool};

#[derive(Clone, Copy)]
pub enum Cell {
    Pool(PoolId, Option<Pool>),
    Share(PoolId, Account, u32),
    Claim(Account, Currency, u32),
    // owner, spender, currency
    Allowance(Account, Account, Currency, u32),
    // owner, spender
    Operator(Account, Account, bool),
    Delta(Account, Currency, i64),
    Mark(Option<Mark>),
    Steps(u32),
}
