//! The command of a script's line, for an edge.

use crate::script::hex::Hex;
use ether_wire::Addr;
use mac_arena::Station;

/// The word after the edge.
#[derive(Clone, Copy, Debug, PartialEq, Eq)]
pub(crate) enum Verb {
    Up,
    Down,
    Mcheck,
    Second,
    Frame,
    Tunnel,
    Pin,
    Unpin,
    Thaw,
    Announce,
    Deliver,
    Port,
    Report,
    Restart,
    Away,
    Back,
}

/// A command for an edge. Ports and updates are numbered from 1; the number may be one that doesn't
/// exist.
#[derive(Clone, Copy)]
pub enum Command<'a> {
    /// The port comes up.
    Up(u64),
    /// The port goes down.
    Down(u64),
    /// The port detects its neighbour's protocol again (IEEE 802.1D-2004 17.19.13).
    Mcheck(u64),
    /// This number of seconds passes, 1 to 100,000.
    Second(u64),
    /// The port receives these octets.
    Frame(u64, Hex<'a>),
    /// The edge receives this datagram from another edge.
    Tunnel(Addr, Hex<'a>),
    /// Pins the station on the port.
    Pin(Station, u64),
    /// Unpins the station.
    Unpin(Station),
    /// Thaws the station.
    Thaw(Station),
    /// Announces the edge's oldest pending update.
    Announce,
    /// The edge receives this update of the pool.
    Deliver(u64),
    /// Prints the port's role and state in the spanning tree.
    Port(u64),
    /// Prints the report of the edge's table.
    Report,
    /// Opens the edge again, in this incarnation.
    Restart(u32),
    /// Sends the other edge no frame until it is back.
    Away(Addr),
    /// Sends the other edge frames again.
    Back(Addr),
}
