// The right to hand on all claims of an owner.
ghost use Rattle.std.specs.Prelude.{◌≤◌};
ghost use Rattle.hands.specs.Hands.{operator as operator_outcome};
ghost use Rattle.store.specs.Outcome.{Meets};
ghost use Rattle.store.specs.Room.{HasRoom};
ghost use Rattle.store.specs.Saved.{world};

use book::Cell;
use checks::{account, flag};
use faults::VaultFault;
use hooks::HookBank;
use store::{Answer, Store};
use tokens::TokenBank;

pub fn operator<T: TokenBank, H: HookBank>(
    store: &mut Store<T, H>,
    owner: u32,
    spender: u32,
    set: u32,
) -> Result<Answer, VaultFault>
    requires { HasRoom store.old }
    ensures { Meets T.TokenBank.meaning H.HookBank.meaning (operator_outcome (world T.TokenBank.meaning H.HookBank.meaning store.old.held) owner spender set) store.old store.new result }
{
    let owner = account(owner)?;
    let spender = account(spender)?;
    let set = flag(set)?;
    store.commit(&[Cell::Operator(owner, spender, set)]);
    Ok(Answer::Done)
}
