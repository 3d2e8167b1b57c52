// What a fault tells: its number, its layer and its place.
ghost use Rattle.std.specs.Prelude.{◌≡◌};
ghost use Rattle.faults.specs.Reports.{number_of, layer_of, reason_of, report_of, unplaced, placed, by_curve, by_hook, by_token};

use crate::cause::{Cause, VaultFault};
use curves::CurveFault;
use hooks::HookFault;
use tokens::TokenFault;

#[derive(Clone, Copy)]
pub enum Layer {
    Curve,
    Hook,
    Token,
    Route,
    Vault,
}

#[derive(Clone, Copy)]
pub struct Report {
    pub number: u32,
    pub layer: Layer,
    pub hop: Option<u32>,
    pub pool: Option<u32>,
    pub reason: Option<u32>,
}

impl Cause {
    // As the rulebook numbers them.
    fn number(self) -> u32
        ensures { result ≡ number_of self }
    {
        match self {
            Cause::Session => 3,
            Cause::Locked => 4,
            Cause::NoFrame => 5,
            Cause::FrameOpen => 6,
            Cause::FramesFull => 7,
            Cause::Account => 8,
            Cause::Currency => 9,
            Cause::Pool => 10,
            Cause::CurveOrHook => 11,
            Cause::Choice => 12,
            Cause::Amount => 13,
            Cause::Hops => 14,
            Cause::CurrencyOrder => 15,
            Cause::PoolExists => 16,
            Cause::PoolsFull => 17,
            Cause::SameAccount => 18,
            Cause::Steps => 19,
            Cause::Shares => 20,
            Cause::SharesShort => 21,
            Cause::Curve(_) => 23,
            Cause::Nothing => 24,
            Cause::Hook(_) => 25,
            Cause::NoRight => 26,
            Cause::ClaimShort => 27,
            Cause::OtherDelta => 28,
            Cause::Mark => 29,
            Cause::Token(_) => 30,
            Cause::Full => 31,
            Cause::DeltaOpen => 33,
        }
    }

    fn layer(self) -> Layer
        ensures { result ≡ layer_of self }
    {
        match self {
            Cause::Curve(_) => Layer::Curve,
            Cause::Hook(_) => Layer::Hook,
            Cause::Token(_) => Layer::Token,
            _ => Layer::Vault,
        }
    }

    // The hook's reason, where it denied.
    fn reason(self) -> Option<u32>
        ensures { result ≡ reason_of self }
    {
        match self {
            Cause::Hook(HookFault::Denied(reason)) => Some(reason as u32),
            _ => None,
        }
    }
}

impl Cause {
    // The fault of a call that concerns this pool.
    pub fn in_pool(self, pool: u32) -> VaultFault
        ensures { result ≡ placed self pool }
    {
        VaultFault {
            cause: self,
            pool: Some(pool),
        }
    }
}

impl VaultFault {
    pub fn report(self) -> Report
        ensures { result ≡ report_of self }
    {
        Report {
            number: self.cause.number(),
            layer: self.cause.layer(),
            hop: None,
            pool: self.pool,
            reason: self.cause.reason(),
        }
    }
}

// A cause that concerns no pool. Written out, to state which fault comes of it.
impl From<Cause> for VaultFault {
    ghost from_gives = { λ e r. r ≡ unplaced e };

    fn from(e: Cause) -> VaultFault {
        VaultFault {
            cause: e,
            pool: None,
        }
    }
}

impl From<CurveFault> for Cause {
    ghost from_gives = { λ e r. r ≡ by_curve e };

    fn from(e: CurveFault) -> Cause {
        Cause::Curve(e)
    }
}

impl From<HookFault> for Cause {
    ghost from_gives = { λ e r. r ≡ by_hook e };

    fn from(e: HookFault) -> Cause {
        Cause::Hook(e)
    }
}

impl From<TokenFault> for VaultFault {
    ghost from_gives = { λ e r. r ≡ by_token e };

    fn from(e: TokenFault) -> VaultFault {
        VaultFault {
            cause: Cause::Token(e),
            pool: None,
        }
    }
}
