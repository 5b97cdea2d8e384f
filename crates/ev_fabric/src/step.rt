//! The steps of a fabric.
ghost use Rattle.std.specs.Prelude.{◌≡◌};
ghost use Rattle.ev_fabric.specs.Local.{event_of};

use ether_wire::Addr;
use ev_edge::Event;
use mac_arena::Station;

/// An event that comes to an edge from outside the fabric. Ports are numbered from 1.
#[derive(Clone, Copy)]
pub enum LocalEvent<'a> {
    /// These octets come at the access port.
    Frame(u8, &'a [u8]),
    /// This datagram comes from another edge.
    TunnelFrame(Addr, &'a [u8]),
    /// The station is to be pinned on the port.
    Pin(Station, u8),
    /// The station is to be pinned no more.
    Unpin(Station),
    /// The station is to be thawed.
    Thaw(Station),
    /// A second passes.
    Second,
    /// The port comes up.
    PortUp(u8),
    /// The port goes down.
    PortDown(u8),
    /// The administrator requests that the port detect its protocol again.
    Mcheck(u8),
    /// Another edge is away: no frame goes to it until it is back.
    Away(Addr),
    /// Another edge is back.
    Back(Addr),
}

/// A step of a fabric. Edges and updates are numbered from 1.
#[derive(Clone, Copy)]
pub enum Step<'a> {
    /// An event comes to an edge from outside.
    Local(usize, LocalEvent<'a>),
    /// The edge announces the own update that has been pending longest.
    Announce(usize),
    /// The edge takes this update of the pool.
    Deliver(usize, usize),
    /// The edge is opened again in this incarnation.
    Restart(usize, u32),
}

/// Returns the event as an event of an edge.
pub(crate) fn event_of<'a>(local: &LocalEvent<'a>) -> Event<'a>
    ensures { result ≡ event_of local.now }
{
    match local {
        LocalEvent::Frame(port, octets) => Event::Frame(*port, *octets),
        LocalEvent::TunnelFrame(from, octets) => Event::TunnelFrame(*from, *octets),
        LocalEvent::Pin(station, port) => Event::Pin(*station, *port),
        LocalEvent::Unpin(station) => Event::Unpin(*station),
        LocalEvent::Thaw(station) => Event::Thaw(*station),
        LocalEvent::Second => Event::Second,
        LocalEvent::PortUp(port) => Event::PortUp(*port),
        LocalEvent::PortDown(port) => Event::PortDown(*port),
        LocalEvent::Mcheck(port) => Event::Mcheck(*port),
        LocalEvent::Away(edge) => Event::Away(*edge),
        LocalEvent::Back(edge) => Event::Back(*edge),
    }
}
