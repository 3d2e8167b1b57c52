// A ready-made hook. It stands apart from its methods, whose clauses cite definitions that name it.
ghost use Rattle.std.specs.Prelude.{◌≡◌, true};
ghost use Rattle.hooks.specs.Rules.{sound_hook};

use crate::rule::HookRule;

#[derive(Drop)]
pub struct Hook {
    pub(crate) rule: HookRule,
    pub(crate) payee: u32,
    pub(crate) number: u32,
    ghost sound: { sound_hook rule payee number ≡ true },
}
