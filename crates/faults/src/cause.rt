// The causes of a refusal, in the order in which they are checked. A bank's own fault stays inside its cause.
use curves::CurveFault;
use hooks::HookFault;
use tokens::TokenFault;

#[derive(Clone, Copy)]
pub enum Cause {
    // a call for a locked vault meets a session
    Session,
    // a call for a session meets a locked vault
    Locked,
    NoFrame,
    FrameOpen,
    FramesFull,
    Account,
    Currency,
    Pool,
    CurveOrHook,
    // a direction or a flag is neither 0 nor 1
    Choice,
    Amount,
    Hops,
    CurrencyOrder,
    PoolExists,
    PoolsFull,
    SameAccount,
    Steps,
    // the pool has no shares, or for a first deposit has some
    Shares,
    SharesShort,
    Curve(CurveFault),
    // nothing would come out
    Nothing,
    Hook(HookFault),
    NoRight,
    ClaimShort,
    OtherDelta,
    Mark,
    Token(TokenFault),
    // a number would leave its bounds
    Full,
    DeltaOpen,
}

// A cause, and the pool where one is concerned.
#[derive(Clone, Copy)]
pub struct VaultFault {
    pub cause: Cause,
    pub pool: Option<u32>,
}
