// Runs sessions on the ready-made ledgers, and tells in print each call with its reply and the parts of the balance equation.
#![tactic(auto)]

mod session;
mod stop;
mod strays;

use stop::Stop;

fn main(rt: HostRuntime) -> Result<(), Stop> {
    session::show(&rt)
}
