//! A bridge with one port that receives messages from a root.
use super::{FIRST_PROPOSAL, USUAL_PORT, bridge_of_one, happen, passes, receive, sent_by};
use crate::bridge::Bridge;
use crate::event::Event;
use rstp_state::Role;
use std::test::Fail;

const SECOND: u64 = 0x02aa_0000_0002;

/// The second bridge's answer to the first proposal: its port is the root port, forwards, announces
/// a change, and agrees.
const ANSWER: [u8; 36] = [
    0x00, 0x00, 0x02, 0x02, 0x79, 0x80, 0x00, 0x02, 0xaa, 0x00, 0x00, 0x00, 0x01, 0x00, 0x00, 0x4e,
    0x20, 0x80, 0x00, 0x02, 0xaa, 0x00, 0x00, 0x00, 0x02, 0x80, 0x01, 0x01, 0x00, 0x14, 0x00, 0x02,
    0x00, 0x0f, 0x00, 0x00,
];

/// Returns these octets, with others from a place on.
fn changed(octets: [u8; 36], place: usize, change: &[u8]) -> [u8; 36] {
    let mut octets = octets;
    for (i, octet) in change.iter().enumerate() {
        if let Some(there) = octets.get_mut(place.saturating_add(i)) {
            *there = *octet;
        }
    }
    octets
}

fn is_root(bridge: &Bridge) -> bool {
    1 <= bridge.len() && bridge.port(1).role == Role::Root
}

#[test]
fn port_becomes_root_and_passes_at_once(rt: HostRuntime) -> Result<(), Fail> {
    let mut bridge = bridge_of_one(SECOND, USUAL_PORT);
    let _up = happen(&mut bridge, Event::PortUp(1));
    let sent = sent_by(receive(&mut bridge, &FIRST_PROPOSAL));
    assert_eq!(rt; sent.as_slice(), ANSWER.as_slice());
    assert!(rt; is_root(&bridge) && passes(&bridge));
    Ok(())
}

#[test]
fn cost_stops_at_the_greatest(rt: HostRuntime) -> Result<(), Fail> {
    let mut bridge = bridge_of_one(SECOND, USUAL_PORT);
    let _up = happen(&mut bridge, Event::PortUp(1));
    let greatest = [0xff, 0xff, 0xff, 0xff];
    let sent = sent_by(receive(&mut bridge, &changed(FIRST_PROPOSAL, 13, &greatest)));
    assert_eq!(rt; sent.as_slice(), changed(ANSWER, 13, &greatest).as_slice());
    assert!(rt; is_root(&bridge));
    Ok(())
}

#[test]
fn max_age_that_does_not_fit_is_written_as_the_greatest(rt: HostRuntime) -> Result<(), Fail> {
    let mut bridge = bridge_of_one(SECOND, USUAL_PORT);
    let _up = happen(&mut bridge, Event::PortUp(1));
    let sent = sent_by(receive(&mut bridge, &changed(FIRST_PROPOSAL, 29, &[0xff, 0x01])));
    assert_eq!(rt;
        sent.as_slice(),
        changed(ANSWER, 29, &[0xff, 0xff]).as_slice()
    );
    assert!(rt; is_root(&bridge));
    Ok(())
}
