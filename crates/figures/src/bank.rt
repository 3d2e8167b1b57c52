// The curves of the worked figures: 0 is the product, 1 the sum, 2 the product under a fee of 30.
ghost use Rattle.std.specs.Prelude.{◌≡◌, MatchResult};

use amounts::RateFault;
use curves::{Beside, Fee, Product, Sum};

pub type ExampleCurves = Beside<Beside<Product, Sum>, Fee<Product>>;

pub fn example_curves() -> Result<ExampleCurves, RateFault>
    ensures { MatchResult result (λ bank. bank.second.rate.parts ≡ 30) (λ _. ⊥) }
{
    let fee = Fee::new(Product, 30)?;
    Ok(Beside::new(Beside::new(Product, Sum), fee))
}
