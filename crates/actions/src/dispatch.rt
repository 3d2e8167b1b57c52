// One action on the store.
ghost use Rattle.std.specs.Prelude.{◌≡◌, ◌≤◌};
ghost use Rattle.actions.specs.Acts.{act as act_outcome, acknowledgement};
ghost use Rattle.store.specs.Outcome.{Meets};
ghost use Rattle.store.specs.Room.{HasRoom};
ghost use Rattle.store.specs.Saved.{world};

use crate::action::Action;
use claims::{allow, burn, hand, mint};
use faults::VaultFault;
use hands::operator;
use hooks::HookBank;
use payments::{clear, pay, settle, sync, take};
use store::{Answer, Store};
use tokens::TokenBank;

// A call that has nothing to tell answers that it is done.
fn acknowledged(said: Result<(), VaultFault>) -> Result<Answer, VaultFault>
    ensures { result ≡ acknowledgement said }
{
    said.map(|()| Answer::Done)
}

// In a session `pay` and `hand` are steps as well. Actions are values, since a run is any list of them.
#[tactic(auto, using(crate::proofs::Acknowledges::acknowledges))]
pub fn act<T: TokenBank, H: HookBank>(
    store: &mut Store<T, H>,
    session: bool,
    action: Action,
) -> Result<Answer, VaultFault>
    requires { HasRoom store.old }
    ensures { Meets T.TokenBank.meaning H.HookBank.meaning (act_outcome session (world T.TokenBank.meaning H.HookBank.meaning store.old.held) action) store.old store.new result }
{
    match action {
        Action::Sync { c } => sync(store, c),
        Action::Settle { who, c } => settle(store, who, c),
        Action::Take { who, c, to, a } => take(store, who, c, to, a),
        Action::Pay { who, c, to, a } => pay(store, session, who, c, to, a),
        Action::Clear { who, c, a } => clear(store, who, c, a),
        Action::Mint { who, to, c, a } => acknowledged(mint(store, who, to, c, a)),
        Action::Burn { who, from, c, a } => acknowledged(burn(store, who, from, c, a)),
        Action::Hand {
            caller,
            from,
            to,
            c,
            a,
        } => acknowledged(hand(store, session, caller, from, to, c, a)),
        Action::Allow {
            owner,
            spender,
            c,
            a,
        } => acknowledged(allow(store, owner, spender, c, a)),
        Action::Operator {
            owner,
            spender,
            flag,
        } => operator(store, owner, spender, flag),
    }
}
