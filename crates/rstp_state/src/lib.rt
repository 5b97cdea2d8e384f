//! The state of a spanning tree bridge's ports: vectors and times, start, and the direct effects
//! of events (IEEE 802.1D-2004, clause 17).
#![tactic(auto)]

mod direct;
mod laws;
mod port;
mod selection;
mod start;
mod vector;

pub use direct::{ask_migration_check, clear_slot, pass_second, set_enabled, store};
pub use laws::never_equally_good;
pub use port::{InfoIs, Information, Migration, PortState, Role, Timing, Topology, has_flag};
pub use selection::{Path, Root, select_roles};
pub use start::{PortSettings, Settings, start_ports};
pub use vector::{Times, Vector, superior};
