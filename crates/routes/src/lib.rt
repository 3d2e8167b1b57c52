// Routes: one exchange for each pool, each bringing in what the last one credited, or nothing at all.
#![tactic(auto)]

mod fault;
mod hop;
mod hops;
mod routes;

pub use fault::RouteFault;
pub use routes::route;
