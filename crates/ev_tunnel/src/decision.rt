//! The forwarding decision: the access ports and the edges that get a frame.
ghost use Rattle.std.specs.Prelude.{◌≡◌};
ghost use Rattle.std.specs.Option.{ForSome};
ghost use Rattle.route_join.specs.Owner.{owner};
ghost use Rattle.route_join.specs.Flood.{flood_of};
ghost use Rattle.ether_wire.specs.Ports.{IsPort};
ghost use Rattle.ev_tunnel.specs.Place.{place_of};
ghost use Rattle.ev_tunnel.specs.Decision.{IsFrom, is_from, open_ports, port_alone, local_of, others_of, remote_of};
ghost use Rattle.ev_tunnel.specs.Decision.{up_edges, local_for, remote_for, local_up, remote_up};
ghost use Rattle.ev_tunnel.specs.Inner.Decision.{IsPlace};

use crate::place::{Place, is_up, place_of};
use arrayvec::ArrayVec;
use ether_wire::{Addr, Mac, NO_PORTS, Vni, common_ports, has_port, with_port, without_port};
use route_join::Table;

/// The source of a frame.
#[derive(Clone, Copy, Debug, PartialEq, Eq)]
pub enum Source {
    /// This access port, from 1 to 64.
    Port(u8),
    /// A tunnel from another edge.
    Tunnel,
}

/// The receivers of a frame.
#[derive(Clone, Debug, PartialEq, Eq, Drop)]
pub struct Decision {
    /// The access ports that get it: port p, from 1 to 64, is bit p - 1.
    pub local: u64,
    /// The edges that get it through a tunnel, ascending.
    pub remote: ArrayVec<Addr, 64>,
}

/// Two sets of access ports, by name: below `decide` they aren't passed side by side.
#[derive(Clone, Copy)]
pub(crate) struct Ports {
    /// The ports of the frame's network.
    pub(crate) members: u64,
    /// The ports that pass.
    pub(crate) passing: u64,
}

/// The inputs of a forwarding decision, without the two sets of ports.
#[derive(Clone, Copy)]
pub struct Forwarding<'a> {
    /// The frame's destination.
    pub destination: Mac,
    /// The frame's VNI.
    pub vni: Vni,
    /// The frame's source.
    pub from: Source,
    /// The port where its destination was learnt.
    pub learnt: Option<u8>,
    /// The routes.
    pub table: &'a Table,
    /// This edge.
    pub own: Addr,
    /// The edges that are away: no frame goes to them.
    pub away: &'a ArrayVec<Addr, 64>,
}

/// The edges that may get a flooded frame.
#[derive(Clone, Copy)]
struct Others<'a> {
    /// The frame's VNI.
    vni: Vni,
    /// The routes.
    table: &'a Table,
    /// This edge.
    own: Addr,
    /// The edges that are away.
    away: &'a ArrayVec<Addr, 64>,
}

/// Returns `true` if the frame came from this port.
fn is_from(from: Source, port: u8) -> bool
    ensures { result ≡ is_from from port }
{
    match from {
        Source::Port(p) => p == port,
        Source::Tunnel => false,
    }
}

/// Returns the members that pass, without the port that the frame came from.
fn open_ports(from: Source, ports: Ports) -> u64
    requires { IsFrom from }
    ensures { result ≡ open_ports from ports }
{
    let open = common_ports(ports.members, ports.passing);
    match from {
        Source::Port(port) => without_port(open, port),
        Source::Tunnel => open,
    }
}

/// Returns only the port, if it passes and the frame did not come from it.
fn port_alone(port: u8, from: Source, ports: Ports) -> u64
    requires { IsPort port }
    ensures { result ≡ port_alone port from ports }
{
    if has_port(ports.passing, port) && !is_from(from, port) {
        with_port(NO_PORTS, port)
    } else {
        NO_PORTS
    }
}

/// Returns the access ports that get a frame with a destination at this place.
fn local_of(place: &Place, from: Source, ports: Ports) -> u64
    requires from { IsFrom from }
    requires place { IsPlace place.now }
    ensures { result ≡ local_of place.now from ports }
{
    match place {
        Place::Everywhere => open_ports(from, ports),
        Place::AtPort(port) => port_alone(*port, from, ports),
        Place::AtEdge(_) => NO_PORTS,
    }
}

/// Removes this edge from a list of edges.
fn leave_out(own: Addr, edges: &mut ArrayVec<Addr, 64>)
    ensures { edges.new.items ≡ others_of own edges.old.items }
{
    edges.retain(|edge| *edge != own);
}

/// Removes the edges that are away from a list of edges.
fn leave_out_away(away: &ArrayVec<Addr, 64>, edges: &mut ArrayVec<Addr, 64>)
    ensures { edges.new.items ≡ up_edges away.now.items edges.old.items }
{
    edges.retain(|edge| is_up(away, *edge));
}

/// Replaces a list by the edges to which a frame is flooded.
fn put_flood(
    vni: Vni,
    table: &Table,
    own: Addr,
    away: &ArrayVec<Addr, 64>,
    remote: &mut ArrayVec<Addr, 64>,
)
    ensures { remote.new.items
        ≡ others_of own (up_edges away.now.items (flood_of table.now vni)) }
{
    table.flood_into(vni, remote);
    leave_out_away(away, remote);
    leave_out(own, remote);
}

/// Replaces a list by the edges that get a frame with a destination at this place.
fn put_remote(place: &Place, from: Source, others: Others<'_>, remote: &mut ArrayVec<Addr, 64>)
    ensures { remote.new.items ≡ remote_of place.now from
        (up_edges others.entry.away.now.items
        (flood_of others.entry.table.now others.entry.vni)) others.entry.own }
{
    let vni = others.vni;
    let table = others.table;
    let own = others.own;
    let away = others.away;
    match (from, place) {
        (Source::Port(_), Place::Everywhere) => put_flood(vni, table, own, away, remote),
        (Source::Port(_), Place::AtEdge(edge)) => {
            remote.clear();
            remote.push(*edge);
        }
        _ => remote.clear(),
    }
}

/// Decides where a frame of network `vni` goes. `entry` is the port where its destination was
/// learnt, `members` are the network's ports, `passing` the ports that pass, `own` is this edge.
///
/// A frame for a group address, or for one that is neither learnt nor owned by another edge, goes
/// to all members that pass except the port that it came from, and from a port to all other edges
/// that advertise the VNI's flood list. A frame for a learnt address goes only to that port, if it
/// passes and the frame did not come from it. A frame for an address that another edge owns goes
/// from a port only to that edge. No frame goes from a tunnel into a tunnel.
pub fn decide(
    destination: Mac,
    vni: Vni,
    from: Source,
    entry: Option<u8>,
    table: &Table,
    own: Addr,
    members: u64,
    passing: u64,
) -> Decision
    requires from { IsFrom from }
    requires entry { ForSome entry IsPort }
    ensures local { result.local
        ≡ local_for table.now vni destination entry own from members passing }
    ensures remote { result.remote.items ≡ remote_for table.now vni destination entry own from }
{
    let mut decision = Decision {
        local: NO_PORTS,
        remote: ArrayVec::new(),
    };
    let nobody = ArrayVec::new();
    let forwarding = Forwarding {
        destination,
        vni,
        from,
        learnt: entry,
        table,
        own,
        away: &nobody,
    };
    decide_into(forwarding, members, passing, &mut decision);
    decision
}

/// Decides the same, but gives no frame to the edges that are away: an address that such an edge
/// owns is unknown, and no frame is flooded to such an edge. It overwrites another decision: a
/// caller that reuses one decision avoids copies of a whole list of edges.
#[inline(always)]
pub fn decide_into(frame: Forwarding<'_>, members: u64, passing: u64, decision: &mut Decision)
    requires from { IsFrom frame.from }
    requires entry { ForSome frame.learnt IsPort }
    ensures local { decision.new.local
        ≡ local_up frame.entry.away.now.items frame.entry.table.now frame.entry.vni
        frame.entry.destination frame.entry.learnt frame.entry.own frame.entry.from members
        passing }
    ensures remote { decision.new.remote.items
        ≡ remote_up frame.entry.away.now.items frame.entry.table.now frame.entry.vni
        frame.entry.destination frame.entry.learnt frame.entry.own frame.entry.from }
{
    let place = place_of(
        frame.destination,
        frame.vni,
        frame.learnt,
        frame.table,
        frame.own,
        frame.away,
    );
    decision.local = local_of(&place, frame.from, Ports { members, passing });
    let others = Others {
        vni: frame.vni,
        table: frame.table,
        own: frame.own,
        away: frame.away,
    };
    put_remote(&place, frame.from, others, &mut decision.remote);
}
