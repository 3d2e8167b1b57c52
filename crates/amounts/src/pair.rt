// Two banks side by side: how many numbers the pair has, and whose each number is.
ghost use Rattle.std.specs.Prelude.{◌≡◌};
ghost use Rattle.amounts.specs.Pair.{both, place};

// A number of a pair as the bank that has it counts.
#[derive(Clone, Copy)]
pub enum Place {
    First(u32),
    Second(u32),
}

// The sum of both counts, cut at the bound.
pub fn pair_count(first: u32, second: u32, bound: u32) -> u32
    ensures { result ≡ both bound first second }
{
    first.saturating_add(second).min(bound)
}

// Numbers below the first count are the first bank's, and the others below the bound the second's, less that count.
pub fn place_of(number: u32, first: u32, bound: u32) -> Option<Place>
    ensures { result ≡ place bound first number }
{
    if number >= bound {
        None
    } else if number < first {
        Some(Place::First(number))
    } else {
        Some(Place::Second(number - first))
    }
}
