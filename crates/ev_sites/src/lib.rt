//! Theory, no part of a program. Among sites of bridges that are at rest, each attached to one
//! edge, no frame runs in a circle, not even through tunnels. After sessions between processes of
//! edges, their tables agree. An edge's bridge is settled at every moment from its opening on.
#![tactic(auto)]

mod bridges;
mod fabrics;
mod laws;
mod runs;
mod sessions;
mod settled;
#[cfg(test)]
mod tests;
mod witnesses;

pub use bridges::{
    can_be_at_rest, no_circle, no_circle_after_losses, no_circle_until_selection,
    no_circle_while_kept, no_circle_within, no_quiet_circle, one_designated_port,
    ring_can_be_at_rest, ring_can_be_cut, ring_can_be_kept, ring_can_last, ways_are_short,
};
pub use fabrics::{every_run_can_be, no_circle_in_a_fabric};
pub use laws::{
    never_back_to_its_bridge, no_circle_through_tunnels, one_tunnel_at_most, sites_can_be_at_rest,
};
pub use runs::{history_is_a_run, run_is_sound};
pub use sessions::{begun_anew, sessions_agree};
pub use settled::{edges_stay_settled, fabrics_stay_settled};
pub use witnesses::{
    a_session_can_be, an_advert_can_stay, fabric_carries_a_frame, fabric_has_sites,
    fabric_moves_a_station, fabric_moves_in_traffic,
};
