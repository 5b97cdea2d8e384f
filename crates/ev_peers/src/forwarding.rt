//! The frames of a reply, which go to the links of its edge.
ghost use Rattle.std.specs.Prelude.{◌≡◌, ◌≤◌, [], Some, map, length};
ghost use Rattle.ether_wire.specs.Ports.{ports_of};
ghost use Rattle.ev_peers.specs.Forwarding.{bpdu_parcel, to_ports, to_edges, decided, parcels_of};
ghost use Rattle.ev_links.specs.Coming.{behind};

use crate::outlet::{Outlet, Target};
use bpdu_wire::{Bpdu, write};
use ether_wire::{Addr, Mac, Vni, next_port, write_bpdu_frame};
use ev_edge::Reply;
use ev_tunnel::{Decision, wrap};

/// The frame that an event carries, with its VNI: at most 9,018 octets, or no frame.
#[derive(Clone, Copy)]
pub struct CarriedFrame<'a> {
    /// The VNI.
    pub vni: Vni,
    /// The frame.
    pub frame: &'a [u8],
}

impl CarriedFrame<'_> {
    /// Returns no frame, with VNI 0.
    pub(crate) fn none() -> Self
        ensures vni { result.vni ≡ 0 }
        ensures frame { result.frame.now ≡ [] }
    {
        CarriedFrame {
            vni: Vni::new(0),
            frame: &[],
        }
    }
}

/// Passes each BPDU to its port, before frames, in a frame from this bridge.
fn give_bpdus<U: Drop, O: Outlet<U>>(outlet: &mut O, bridge: Mac, bpdus: &[(u8, Bpdu)])
    ensures frames { O.parcels outlet.new
        ≡ behind (O.parcels outlet.old) (map (bpdu_parcel bridge) bpdus.now) }
    ensures records { O.records outlet.new ≡ O.records outlet.old }
{
    let mut frame = [0u8; 60];
    for sent in bpdus {
        let (port, bpdu) = sent;
        write_bpdu_frame(&mut frame, bridge, write(bpdu).as_slice());
        outlet.bpdu(*port, &frame);
    }
}

/// Passes a frame to each port of a set, ascending.
fn give_ports<U: Drop, O: Outlet<U>>(outlet: &mut O, ports: u64, frame: &[u8])
    ensures frames { O.parcels outlet.new
        ≡ behind (O.parcels outlet.old) (to_ports frame.now (ports_of ports)) }
    ensures records { O.records outlet.new ≡ O.records outlet.old }
{
    let mut port = 0;
    while let Some(next) = next_port(ports, port) {
        outlet.frame(Target::Port(next), frame);
        port = next;
    }
}

/// Passes a datagram to each of these edges.
fn give_edges<U: Drop, O: Outlet<U>>(outlet: &mut O, edges: &[Addr], datagram: &[u8])
    ensures frames { O.parcels outlet.new
        ≡ behind (O.parcels outlet.old) (to_edges datagram.now edges.now) }
    ensures records { O.records outlet.new ≡ O.records outlet.old }
{
    for edge in edges {
        outlet.frame(Target::Edge(*edge), datagram);
    }
}

/// Passes a frame to the targets of a decision: unchanged to the ports, and in a datagram to the
/// edges.
fn give_decided<U: Drop, O: Outlet<U>>(
    outlet: &mut O,
    datagram: &mut [u8; 9026],
    carried: &CarriedFrame<'_>,
    decision: &Decision,
)
    requires { length carried.now.frame.now ≤ 9018 }
    ensures frames { O.parcels outlet.new ≡ behind (O.parcels outlet.old)
        (decided carried.now.vni carried.now.frame.now (Some decision.now)) }
    ensures records { O.records outlet.new ≡ O.records outlet.old }
{
    give_ports::<U, O>(outlet, decision.local, carried.frame);
    let edges = decision.remote.as_slice();
    if edges.is_empty() {
        return;
    }
    let size = wrap(datagram, carried.vni, carried.frame);
    give_edges::<U, O>(outlet, edges, &datagram[..size]);
}

/// Passes the frames of a reply to the links of its edge. Each BPDU goes to its port, in a frame
/// from this bridge. Then the frame that the event carried goes to the targets of the decision:
/// unchanged to the ports, and in a datagram to the edges. `datagram` is the buffer for that
/// datagram.
pub fn give_out<U: Drop, O: Outlet<U>>(
    outlet: &mut O,
    datagram: &mut [u8; 9026],
    bridge: Mac,
    carried: &CarriedFrame<'_>,
    reply: &Reply,
)
    requires { length carried.now.frame.now ≤ 9018 }
    ensures frames { O.parcels outlet.new ≡ behind (O.parcels outlet.old)
        (parcels_of bridge carried.now.vni carried.now.frame.now reply.now) }
    ensures records { O.records outlet.new ≡ O.records outlet.old }
{
    give_bpdus::<U, O>(outlet, bridge, reply.bpdus.as_slice());
    if let Some(decision) = &reply.decision {
        give_decided::<U, O>(outlet, datagram, carried, decision);
    }
}
