//! Edges that run over UDP sockets until an input ends, and their reports at the end.
#![tactic(auto)]

mod begun;
mod bound;
mod client_stream;
mod clients;
mod control_socket;
mod first_line;
mod laws;
mod links;
mod lives;
mod named;
mod needs;
mod obstacles;
mod print;
mod print_needs;
mod records;
mod run;
mod serve;
mod settling;
mod socket_drops;
mod sockets;
mod system;
mod system_drops;
mod taps;
mod thread_check;
mod watching;

pub use control_socket::ListenError;
pub use laws::ran_is_sound;
pub use needs::{Needs, needs_of};
pub use obstacles::{Cause, EdgePort, End, Obstacle, ProcessLimits, obstacles_of};
pub use print_needs::{put_asked_needs, put_obstacles};
pub use run::run_edges;
pub use serve::serve_edges;
pub use sockets::BindError;
pub use system::{Runtime, System};
pub use system_drops::UdpTable;
pub use taps::AttachError;
pub use thread_check::ThreadPolicy;

#[cfg(test)]
mod tests;
