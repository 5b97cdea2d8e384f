//! What may happen to an edge.

use ether_wire::Addr;
use mac_arena::Station;
use route_wire::Update;

/// What may happen to an edge. Ports are numbered from 1.
#[derive(Clone, Copy)]
pub enum Event<'a> {
    /// These octets come at the access port.
    Frame(u8, &'a [u8]),
    /// This datagram comes from another edge.
    TunnelFrame(Addr, &'a [u8]),
    /// This update comes, of another edge or of the edge itself in an earlier incarnation.
    Take(Update),
    /// The station is to be pinned on the port.
    Pin(Station, u8),
    /// The station is to be pinned no more.
    Unpin(Station),
    /// The station is to be thawed.
    Thaw(Station),
    /// A second passes.
    Second,
    /// The port comes up.
    PortUp(u8),
    /// The port goes down.
    PortDown(u8),
    /// The administrator lets the port detect its neighbour's protocol again.
    Mcheck(u8),
    /// The next pending own update is to be announced.
    Announce,
    /// The other edge is away: no frame goes to it until it is back.
    Away(Addr),
    /// The other edge is back.
    Back(Addr),
}
