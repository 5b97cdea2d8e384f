//! The routes that an edge originates with their numbers, and the stations at its ports. They match
//! each other.
#![tactic(auto)]

mod laws;
mod local_routes;
mod opening;
mod pending;
mod speaker;
#[cfg(test)]
mod tests;

pub use laws::{aged_out, flushed_out, opening_originates};
pub use local_routes::{Imported, LocalRoutes, OwnError};
pub use opening::Start;
pub use speaker::SPENT;
