//! Workers of an edge: each enters the events of its link or channel into the edge's book, and
//! passes on the book's answers: frames to links, records to the other edges and alerts to the
//! operator.
#![tactic(auto)]

mod answering;
mod edge_links;
mod edge_outcome;
mod edge_threads;
mod entering;
mod forwarding;
mod gate;
mod history;
mod job;
mod joining;
mod laws;
mod outlet;
mod packets;
mod plan;
mod run;
mod sending;
mod shared_edge;
mod shared_line;
mod worker;
mod workers;

pub use edge_links::{EdgeLinks, Link};
pub use edge_outcome::{EdgeOutcome, Faults};
pub use edge_threads::{EdgeContext, edge_worker};
pub use forwarding::{CarriedFrame, give_out};
pub use gate::{Gate, OpenGate, Point};
pub use history::new_history;
pub use laws::{announced_is_sent, each_sent_is_taken, each_taken_was_sent};
pub use outlet::{Outlet, Target};
pub use packets::PacketsIn;
pub use run::{Mailroom, PreparedEdges, Setup, run_all};
pub use shared_edge::{Ended, SharedEdge};
pub use worker::Worker;
pub use workers::{clock_worker, out_worker, peer_worker, port_worker, tunnel_worker};
