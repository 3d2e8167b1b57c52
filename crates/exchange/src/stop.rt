// Why the program stops before its end: it cannot print, or a bank was not made. Each program has an enum of what it can meet.
ghost use Rattle.std.specs.Prelude.{◌≡◌};
ghost use Rattle.exchange.specs.declared.stop.Stop.TheVariants.{Print, Curves, Ledger, Hooks};

use amounts::RateFault;
use hooks::HookSetupFault;
use std::io;
use tokens::OpeningFault;

#[derive(Debug, Drop)]
pub enum Stop {
    Print(io::Error),
    Curves(RateFault),
    Ledger(OpeningFault),
    Hooks(HookSetupFault),
}

// Each From is written out, to state which fault came: a derived one states nothing.
impl From<io::Error> for Stop {
    ghost from_gives = { λ e r. r ≡ Print e };

    fn from(e: io::Error) -> Stop {
        Stop::Print(e)
    }
}

impl From<RateFault> for Stop {
    ghost from_gives = { λ e r. r ≡ Curves e };

    fn from(e: RateFault) -> Stop {
        Stop::Curves(e)
    }
}

impl From<OpeningFault> for Stop {
    ghost from_gives = { λ e r. r ≡ Ledger e };

    fn from(e: OpeningFault) -> Stop {
        Stop::Ledger(e)
    }
}

impl From<HookSetupFault> for Stop {
    ghost from_gives = { λ e r. r ≡ Hooks e };

    fn from(e: HookSetupFault) -> Stop {
        Stop::Hooks(e)
    }
}
