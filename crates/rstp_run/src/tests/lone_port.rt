//! A bridge with one port that receives no message.
use super::{
    FIRST_PROPOSAL, USUAL_PORT, bridge_of_one, happen, learns, passes, sent_by, sent_in_second,
};
use crate::bridge::{Bridge, BridgeConfig};
use crate::event::Event;
use bpdu_wire::BridgeId;
use rstp_state::{PortSettings, Settings};
use std::test::Fail;

const FIRST: u64 = 0x02aa_0000_0001;

/// Returns the first proposal with these flags.
fn with_flags(flags: u8) -> [u8; 36] {
    let mut octets = FIRST_PROPOSAL;
    octets[4] = flags;
    octets
}

#[test]
fn lone_port_comes_up_in_twenty_two_seconds(rt: HostRuntime) -> Result<(), Fail> {
    let port = PortSettings {
        auto_edge: false,
        ..USUAL_PORT
    };
    let mut bridge = bridge_of_one(FIRST, port);
    let first = sent_by(happen(&mut bridge, Event::PortUp(1)));
    assert_eq!(rt; first.as_slice(), FIRST_PROPOSAL.as_slice());
    for second in 1u8..20 {
        let sent = sent_in_second(&mut bridge);
        if second % 2 == 0 {
            assert_eq!(rt; sent.as_slice(), FIRST_PROPOSAL.as_slice(), "at {second}");
        } else {
            assert!(rt; sent.is_empty(), "at {second}");
        }
        assert!(rt; !learns(&bridge) && !passes(&bridge), "at {second}");
    }
    let sent = sent_in_second(&mut bridge);
    assert_eq!(rt; sent.as_slice(), with_flags(0x1e).as_slice());
    assert!(rt; learns(&bridge) && !passes(&bridge));
    assert!(rt; sent_in_second(&mut bridge).is_empty());
    assert!(rt; learns(&bridge) && !passes(&bridge));
    let sent = sent_in_second(&mut bridge);
    assert_eq!(rt; sent.as_slice(), with_flags(0x3f).as_slice());
    assert!(rt; learns(&bridge) && passes(&bridge));
    Ok(())
}

#[test]
fn lone_port_finds_no_bridge_in_three_seconds(rt: HostRuntime) -> Result<(), Fail> {
    let mut bridge = bridge_of_one(FIRST, USUAL_PORT);
    let _up = happen(&mut bridge, Event::PortUp(1));
    for second in 1u8..4 {
        assert!(rt; !passes(&bridge), "before {second}");
        let _second = happen(&mut bridge, Event::Second);
    }
    assert!(rt; passes(&bridge));
    Ok(())
}

#[test]
fn edge_port_passes_at_once_and_is_flushed_as_it_goes_down(rt: HostRuntime) -> Result<(), Fail> {
    let port = PortSettings {
        admin_edge: true,
        ..USUAL_PORT
    };
    let mut bridge = bridge_of_one(FIRST, port);
    let _up = happen(&mut bridge, Event::PortUp(1));
    assert!(rt; passes(&bridge));
    let down = happen(&mut bridge, Event::PortDown(1));
    assert_eq!(rt; down.map(|outcome| outcome.flush), Some(1));
    assert!(rt; !passes(&bridge));
    Ok(())
}

#[test]
fn one_firing_leaves_the_bridge_unsettled(rt: HostRuntime) -> Result<(), Fail> {
    let mut bridge = bridge_of_one(FIRST, USUAL_PORT);
    if bridge.len() == 1 {
        let outcome = bridge.event_within(Event::PortUp(1), 1);
        assert!(rt; !outcome.settled);
        assert!(rt; outcome.out.is_empty());
    }
    assert!(rt; !passes(&bridge) && !learns(&bridge));
    let outcome = happen(&mut bridge, Event::Second);
    assert_eq!(rt; outcome.as_ref().map(|outcome| outcome.settled), Some(true));
    assert_eq!(rt; sent_by(outcome).as_slice(), FIRST_PROPOSAL.as_slice());
    Ok(())
}

/// With a Hello time of 0 the rule Periodic stays enabled after it fires, so no event settles.
/// `events_settle` needs its premise.
#[test]
fn hello_of_zero_never_settles(rt: HostRuntime) -> Result<(), Fail> {
    let mut bridge = Bridge::new(BridgeConfig {
        settings: Settings {
            identifier: BridgeId::new(0x8000_02aa_0000_0001),
            hello: 0,
            max_age: 20,
            forward_delay: 15,
            hold: 6,
        },
        ports: &[USUAL_PORT],
    });
    for event in [Event::Second, Event::PortUp(1), Event::Second] {
        let outcome = happen(&mut bridge, event);
        assert_eq!(rt; outcome.map(|outcome| outcome.settled), Some(false));
    }
    Ok(())
}
