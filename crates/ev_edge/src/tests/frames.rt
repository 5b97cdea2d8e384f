//! Frames that come from tunnels, and those that hold BPDUs.

use super::lines::{Line, first_wrong};
use super::{addr, flood, open, refusal_of, step};
use crate::{Edge, EdgeRefusal, Event, Refusal};
use route_join::Taken;
use std::test::Fail;

/// A broadcast of 02:00:00:00:00:0b in network 5001.
pub(super) const DATAGRAM: [u8; 22] = [
    0x08, 0x00, 0x00, 0x00, 0x00, 0x13, 0x89, 0x00, 0xff, 0xff, 0xff, 0xff, 0xff, 0xff, 0x02, 0x00,
    0x00, 0x00, 0x00, 0x0b, 0x08, 0x00,
];

#[test]
fn tunnel_broadcast_goes_to_all_ports_that_pass_and_no_edge(rt: HostRuntime) -> Result<(), Fail> {
    let mut edge = open(rt.alloc(), 0, 16, 300)?;
    let lines = [
        Line::Taken(flood(1), Taken::Newer),
        Line::Taken(flood(3), Taken::Newer),
        Line::Taken(flood(4), Taken::Newer),
        Line::Sent(Event::TunnelFrame(addr(1), &DATAGRAM), Some((0b11, 0))),
        Line::Keeps(0, 1),
    ];
    assert_eq!(rt; first_wrong(&mut edge, &lines), None);
    Ok(())
}

// Whether a datagram of this edge is refused so.
fn is_refused(edge: &mut Edge, from: u8, octets: &[u8], refusal: Refusal) -> bool {
    refusal_of(step(edge, &Event::TunnelFrame(addr(from), octets))) == Some(refusal)
}

#[test]
fn datagrams_are_refused_in_order(rt: HostRuntime) -> Result<(), Fail> {
    let mut edge = open(rt.alloc(), 0, 16, 300)?;
    let mut flagless = DATAGRAM;
    flagless[0] = 0;
    let mut foreign = DATAGRAM;
    foreign[6] = 0x8a;
    let (seven, _) = DATAGRAM.split_at(7);
    let unknown = Refusal::Edge(EdgeRefusal::UnknownOriginator);
    let bare = Refusal::Vxlan(vxlan_wire::VxlanRefusal::NoInstance);
    let short = Refusal::Vxlan(vxlan_wire::VxlanRefusal::Short);
    let unserved = Refusal::Edge(EdgeRefusal::NoSuchVni);
    assert!(rt; is_refused(&mut edge, 2, &flagless, unknown));
    assert!(rt; is_refused(&mut edge, 9, &flagless, unknown));
    assert!(rt; is_refused(&mut edge, 1, &flagless, bare));
    assert!(rt; is_refused(&mut edge, 1, seven, short));
    assert!(rt; is_refused(&mut edge, 1, &foreign, unserved));
    Ok(())
}

// A frame to the bridge group address that says a length, with LLC and a notification of 4 octets.
fn notification(length: u8) -> [u8; 60] {
    let mut octets = [0; 60];
    octets[0] = 0x01;
    octets[1] = 0x80;
    octets[2] = 0xc2;
    octets[6] = 0x02;
    octets[13] = length;
    octets[14] = 0x42;
    octets[15] = 0x42;
    octets[16] = 0x03;
    octets[20] = 0x80;
    octets
}

// Whether a frame is taken, and sent nowhere.
fn goes_nowhere(edge: &mut Edge, octets: &[u8]) -> bool {
    match step(edge, &Event::Frame(1, octets)) {
        Ok(reply) => reply.decision.is_none(),
        Err(_) => false,
    }
}

#[test]
fn bpdu_frames_are_read_by_their_length(rt: HostRuntime) -> Result<(), Fail> {
    let mut edge = open(rt.alloc(), 0, 16, 300)?;
    assert!(rt; goes_nowhere(&mut edge, &notification(2)));
    let refused = refusal_of(step(&mut edge, &Event::Frame(1, &notification(6))));
    assert_eq!(rt; refused, Some(Refusal::Bpdu(bpdu_wire::BpduRefusal::Short)));
    assert!(rt; goes_nowhere(&mut edge, &notification(7)));
    assert_eq!(rt; edge.entries(), 0);
    Ok(())
}
