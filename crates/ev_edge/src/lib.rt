//! An edge: a bridge with access ports that learns stations, advertises them, takes the updates of
//! other edges, and decides where each frame goes. One event at a time.
#![tactic(auto)]

mod arrival;
mod away;
mod bridging;
mod config;
mod display;
mod edge;
mod event;
mod laws;
mod learning;
mod limits;
mod pinning;
mod refusal;
mod reply;
mod sending;
mod storms;
mod taking;
#[cfg(test)]
mod tests;

pub use arrival::Arrival;
pub use config::{EdgeConfig, PortConfig};
pub use edge::Edge;
pub use event::Event;
pub use laws::{
    advertises_its_own, as_if_never_away, bridge_has_one_outcome, comes_back, depends_not_on_away,
    floods_for_away, gives_none_away, keeps_limits, keeps_storm_limits, keeps_to_stations,
    leaves_by_members_that_pass, limits_nothing, marks_only_away, never_from_tunnel_to_tunnel,
    opening_originates, own_changes, registers_are_few, registers_are_few_from_the_opening,
    reserved_goes_nowhere, reserved_in_tunnel_goes_nowhere, stations_are_few, stays_good,
    steps_remove, storms_are_few, storms_count_none, storms_spare, takes_no_memory,
};
pub use learning::Case;
pub use limits::Limits;
pub use pinning::PinCase;
pub use refusal::{EdgeRefusal, Refusal};
pub use reply::Reply;
