// The rules that a ready-made hook can have.
use amounts::Rate;

// A volume holds its cap: the most that it lets in.
#[derive(Clone, Copy)]
pub(crate) enum HookRule {
    Open,
    Toll(Rate),
    Volume(u32),
}
