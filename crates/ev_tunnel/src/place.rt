//! The place of a frame's destination: everywhere, at an access port, or at another edge.
ghost use Rattle.std.specs.Prelude.{◌≡◌};
ghost use Rattle.route_join.specs.Owner.{owner};
ghost use Rattle.ev_tunnel.specs.Place.{place_of};
ghost use Rattle.ev_tunnel.specs.Decision.{is_up, up_owner};

use arrayvec::ArrayVec;
use ether_wire::{Addr, Mac, Vni};
use route_join::Table;

/// The place of a frame's destination.
#[derive(Clone, Copy, Debug, PartialEq, Eq)]
pub(crate) enum Place {
    /// A group address, or one that isn't known: the frame is flooded.
    Everywhere,
    /// On this access port.
    AtPort(u8),
    /// At this other edge.
    AtEdge(Addr),
}

/// Returns `true` if the edge isn't one of those that are away.
pub(crate) fn is_up(away: &ArrayVec<Addr, 64>, edge: Addr) -> bool
    ensures { result ≡ is_up away.now.items edge }
{
    !away.as_slice().contains(&edge)
}

/// Returns the place of a destination: a group address is everywhere, a learnt one at its port, and
/// one that another edge owns at that edge, unless that edge is away; any other is unknown.
pub(crate) fn place_of(
    destination: Mac,
    vni: Vni,
    entry: Option<u8>,
    table: &Table,
    own: Addr,
    away: &ArrayVec<Addr, 64>,
) -> Place
    ensures { result ≡ place_of destination entry
        (up_owner away.now.items (owner table.now vni destination)) own }
{
    if destination.is_group() {
        return Place::Everywhere;
    }
    if let Some(port) = entry {
        return Place::AtPort(port);
    }
    match table.owner(vni, destination) {
        Some(edge) if edge != own && is_up(away, edge) => Place::AtEdge(edge),
        _ => Place::Everywhere,
    }
}
