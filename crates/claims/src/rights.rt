// Who may use a claim.
ghost use Rattle.std.specs.Prelude.{◌≡◌, ◌-◌, true, false, MatchResult, nat_le};
ghost use Rattle.claims.specs.Claims.{has_right, unspent};
ghost use Rattle.faults.specs.declared.cause.Cause.TheVariants.{NoRight as no_right, ClaimShort as claim_short};

use amounts::MOST;
use book::{Account, Book, Currency};
use faults::Cause;

// What is left of the caller's allowance once it has used `a` of the claim.
pub fn allowance_after(
    book: &Book,
    caller: Account,
    from: Account,
    c: Currency,
    a: u32,
) -> Result<u32, Cause>
    ensures { MatchResult result
        (λ n. (n ≡ unspent book.now caller.number from.number c.number a) × (has_right book.now caller.number from.number c.number a ≡ true))
        (λ f. (f ≡ no_right) × (has_right book.now caller.number from.number c.number a ≡ false)) }
{
    let allowance = book.allowance(from, caller, c);
    if caller == from || book.is_operator(from, caller) {
        return Ok(allowance);
    }
    if allowance < a {
        return Err(Cause::NoRight);
    }
    if allowance == MOST {
        return Ok(allowance);
    }
    Ok(allowance - a)
}

// What is left of a claim.
pub fn decreased(claim: u32, a: u32) -> Result<u32, Cause>
    ensures { MatchResult result (λ n. (n ≡ claim - a) × (nat_le a claim ≡ true)) (λ f. (f ≡ claim_short) × (nat_le a claim ≡ false)) }
{
    claim.checked_sub(a).ok_or(Cause::ClaimShort)
}
