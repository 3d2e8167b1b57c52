// Ledgers made from opening balances.
ghost use Rattle.std.specs.Prelude.{◌≡◌, Ok, Err, MatchResult, slice_index};
ghost use Rattle.tokens.specs.Ledgers.{ledger};
ghost use Rattle.tokens.specs.Meaning.{sum_below};
ghost use Rattle.tokens.specs.Opening.{all_fit, opened, fresh, Plain};

use crate::ledger::Ledger;
use crate::supply::Supply;
use amounts::{MOST, Rate};

// Why a ledger is not made.
#[derive(Clone, Copy, Debug)]
pub enum OpeningFault {
    Count,
    Rate,
    Sum,
}

// All that the accounts hold of one currency.
fn row_sum(row: &[u32; 16]) -> u64
    ensures { result ≡ sum_below 16 (slice_index row.now) }
{
    row.iter().map(|held| u64::from(*held)).sum()
}

fn rows_fit(count: u32, rows: &[[u32; 16]; 8]) -> bool
    ensures { result ≡ all_fit count rows.now }
{
    rows.iter()
        .take(count as usize)
        .all(|row| row_sum(row) <= u64::from(MOST))
}

impl Ledger {
    // A ledger in which all that is sent arrives.
    pub fn plain(count: u32, opening: [[u32; 16]; 8]) -> Result<Ledger, OpeningFault>
        ensures { MatchResult result
            (λ l. (opened count opening 0 ≡ Ok tt) × (ledger l.count l.supplies l.rate.parts ≡ fresh count opening 0) × Plain (fresh count opening 0))
            (λ e. opened count opening 0 ≡ Err e) }
    {
        Ledger::levy(count, opening, 0)
    }

    // A ledger whose pot gets so many ten-thousandths of what is sent, rounded down.
    pub fn levy(count: u32, opening: [[u32; 16]; 8], rate: u32) -> Result<Ledger, OpeningFault>
        ensures { MatchResult result
            (λ l. (opened count opening rate ≡ Ok tt) × (ledger l.count l.supplies l.rate.parts ≡ fresh count opening rate))
            (λ e. opened count opening rate ≡ Err e) }
    {
        if count > 8 {
            return Err(OpeningFault::Count);
        }
        let rate = Rate::new(rate).map_err(|_| OpeningFault::Rate)?;
        if !rows_fit(count, &opening) {
            return Err(OpeningFault::Sum);
        }
        Ok(Ledger {
            count,
            rate,
            supplies: opening.map(Supply::new),
        })
    }
}
