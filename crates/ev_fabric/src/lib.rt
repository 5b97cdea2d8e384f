//! A fabric: edges that share a pool of announced updates, and the laws that hold in every run of
//! it.
#![tactic(auto)]

mod convergence;
mod fabric;
mod later;
mod laws;
mod refusal;
mod rounds;
mod station;
mod step;
#[cfg(test)]
mod tests;
mod witnesses;

pub use convergence::{agrees, bounded, fades, fair, moves, reached, settles};
pub use fabric::Fabric;
pub use later::{adverts_are_anew, rests_run, runs_lead};
pub use laws::{
    agreed_reports, agreed_tables, announced, every_run, frames_come_out, frames_go,
    from_port_to_port, learnt, none_ahead, none_back, one_of_all, one_of_two, owner_of_all,
    said_once, sets_join, starts, tables_join, tunnel_frames_come_out,
};
pub use refusal::FabricRefusal;
pub use rounds::{frames_meanwhile, station_agrees, station_agrees_after_a_move, taken_stays};
pub use station::{
    agreed_station, agrees_on, station_arrives, station_frames_go, station_from_port_to_port,
    station_lasts, station_moves, station_moves_anyhow, station_settles,
};
pub use step::{LocalEvent, Step};
pub use witnesses::fabric_opens;
