// What an accepted call answers. No Option of an amount: a call that is done has answered, and `None` would read as if it had not.
#[derive(Clone, Copy)]
pub enum Answer {
    Done,
    Amount(u32),
}
