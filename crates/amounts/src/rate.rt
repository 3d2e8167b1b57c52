// A rate in ten-thousandths. It stands apart from its methods, whose clauses cite definitions that name it.
ghost use Rattle.std.specs.Prelude.{◌≤◌};

#[derive(Clone, Copy)]
pub struct Rate {
    pub(crate) parts: u32,
    ghost within: { parts ≤ 1000 },
}
