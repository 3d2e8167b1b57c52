// Deltas after a debit or a credit, where they stay from -M to M, and a delta of exactly an amount.
ghost use Rattle.std.specs.Prelude.{◌≡◌, true, false, pos, ◌+ℤ◌, ◌-ℤ◌, MatchResult};
ghost use Rattle.checks.specs.Tests.{in_range, is_delta};
ghost use Rattle.faults.specs.declared.cause.Cause.TheVariants.{Full as full, OtherDelta as other_delta};

use amounts::MOST;
use faults::Cause;

// A delta, where it is in range.
fn ranged(next: i128) -> Result<i64, Cause>
    ensures { MatchResult result (λ d. (d ≡ next) × (in_range next ≡ true)) (λ f. (f ≡ full) × (in_range next ≡ false)) }
{
    if next < -(MOST as i128) || next > MOST as i128 {
        return Err(Cause::Full);
    }
    Ok(next as i64)
}

pub fn lowered(delta: i64, by: u64) -> Result<i64, Cause>
    ensures { MatchResult result (λ d. (d ≡ delta -ℤ pos by) × (in_range (delta -ℤ pos by) ≡ true)) (λ f. (f ≡ full) × (in_range (delta -ℤ pos by) ≡ false)) }
{
    ranged(delta as i128 - by as i128)
}

pub fn raised(delta: i64, by: u64) -> Result<i64, Cause>
    ensures { MatchResult result (λ d. (d ≡ delta +ℤ pos by) × (in_range (delta +ℤ pos by) ≡ true)) (λ f. (f ≡ full) × (in_range (delta +ℤ pos by) ≡ false)) }
{
    ranged(delta as i128 + by as i128)
}

pub fn exactly(delta: i64, a: u32) -> Result<(), Cause>
    ensures { MatchResult result (λ _. is_delta delta a ≡ true) (λ f. (f ≡ other_delta) × (is_delta delta a ≡ false)) }
{
    if delta != a as i64 {
        return Err(Cause::OtherDelta);
    }
    Ok(())
}
