// Two banks of one kind side by side: the second's numbers follow the first's.
ghost use Rattle.std.specs.Prelude.{◌≡◌};

#[derive(Drop)]
pub struct Beside<First, Second> {
    pub first: First,
    pub second: Second,
}

impl<First, Second> Beside<First, Second> {
    pub fn new(first: First, second: Second) -> Self
        ensures { (result.first ≡ first) × (result.second ≡ second) }
    {
        Beside { first, second }
    }
}
