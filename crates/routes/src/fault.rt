// Why a route is refused. The vault's fault stays inside, and nothing of it is lost.
ghost use Rattle.std.specs.Prelude.{◌≡◌};
ghost use Rattle.routes.specs.Faults.{report_of_route, whole};

use faults::{Cause, Layer, Report, VaultFault};

#[derive(Clone, Copy)]
pub enum RouteFault {
    // before any hop
    Whole(VaultFault),
    // at a hop, counted from 1
    At { hop: u32, fault: VaultFault },
    // the pool of a hop has not the carried currency
    Carried { hop: u32, pool: u32 },
    // the final amount is below the least
    Least,
}

impl RouteFault {
    pub fn report(self) -> Report
        ensures { result ≡ report_of_route self }
    {
        match self {
            RouteFault::Whole(fault) => fault.report(),
            RouteFault::At { hop, fault } => Report {
                hop: Some(hop),
                ..fault.report()
            },
            RouteFault::Carried { hop, pool } => Report {
                number: 22,
                layer: Layer::Route,
                hop: Some(hop),
                pool: Some(pool),
                reason: None,
            },
            RouteFault::Least => Report {
                number: 32,
                layer: Layer::Route,
                hop: None,
                pool: None,
                reason: None,
            },
        }
    }
}

impl From<Cause> for RouteFault {
    ghost from_gives = { λ e r. r ≡ whole e };

    fn from(e: Cause) -> RouteFault {
        RouteFault::Whole(e.into())
    }
}
