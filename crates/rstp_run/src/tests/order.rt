//! The order in which rules fire, by octets from outside. The contract of an event has the order as
//! a definition; each test names the wrong order that it detects.

use super::{
    USUAL_PORT, bridge_of_one, happen, happen_within, receive, receive_at, sent_in_second,
};
use crate::bridge::{Bridge, BridgeConfig};
use crate::event::{Event, Outcome};
use crate::information::is_out;
use crate::migration::is_checking;
use crate::rule::{MAIN, SENDS};
use crate::topology_change::is_active;
use arrayvec::ArrayVec;
use bpdu_wire::{BridgeId, write};
use rstp_state::{PortSettings, Role, Settings};
use std::test::Fail;

/// A message of the older protocol, from bridge 8000.02:aa:00:00:00:01 as the root.
const CONFIG: [u8; 35] = [
    0x00, 0x00, 0x00, 0x00, 0x01, 0x80, 0x00, 0x02, 0xaa, 0x00, 0x00, 0x00, 0x01, 0x00, 0x00, 0x00,
    0x00, 0x80, 0x00, 0x02, 0xaa, 0x00, 0x00, 0x00, 0x01, 0x80, 0x01, 0x00, 0x00, 0x14, 0x00, 0x02,
    0x00, 0x0f, 0x00,
];

/// Returns the value of a digit of base 16.
fn digit(character: u8) -> u8 {
    match character {
        b'0'..=b'9' => character - b'0',
        b'a'..=b'f' => character - b'a' + 10,
        _ => 0,
    }
}

/// Returns the octets of a text with two digits per octet.
fn octets(text: &str) -> ArrayVec<u8, 36> {
    let mut octets = ArrayVec::new();
    for pair in text.as_bytes().chunks(2) {
        if let (Some(high), Some(low)) = (pair.first(), pair.get(1)) {
            let _fits = octets.try_push(digit(*high) << 4 | digit(*low));
        }
    }
    octets
}

/// Returns `true` if the outcome sends exactly these octets, at these ports.
fn sends(outcome: Option<Outcome>, expected: &[(u8, &str)]) -> bool {
    let Some(outcome) = outcome else {
        return false;
    };
    let mut is_so = outcome.settled && outcome.out.len() == expected.len();
    for ((port, bpdu), (at, text)) in outcome.out.iter().zip(expected.iter()) {
        is_so = is_so && port == at && write(bpdu).as_slice() == octets(text).as_slice();
    }
    is_so
}

/// The table has 58 rules, and each has exactly one place in the order.
#[test]
fn each_of_fifty_eight_rules_has_one_place(rt: HostRuntime) -> Result<(), Fail> {
    let mut rules = 0u8;
    for (place, rule) in MAIN.iter().chain(SENDS.iter()).enumerate() {
        for other in MAIN.iter().chain(SENDS.iter()).take(place) {
            assert!(rt; rule != other, "{rule:?} stands twice");
        }
        rules = rules.saturating_add(1);
    }
    assert_eq!(rt; rules, 58);
    Ok(())
}

/// Returns `true` if selection, each machine but that of the topology, and the detected change have
/// processed port 1, in the order in which they process a port that goes down.
fn have_come(bridge: &Bridge) -> [bool; 8] {
    if bridge.len() < 1 {
        return [false; 8];
    }
    let port = bridge.port(1);
    [
        port.edge_delay_while == 3,
        is_checking(port.migration),
        !port.oper_edge,
        is_out(port.information),
        is_active(port.topology),
        port.selected_role.is_disabled(),
        port.role.is_disabled(),
        !port.learning,
    ]
}

/// Returns a bridge of one port, which had found that the port leads to no bridge, after the port
/// went down and this many rules fired.
fn falling(firings: usize) -> Bridge {
    let mut bridge = bridge_of_one(0x02aa_0000_0001, USUAL_PORT);
    let _up = happen(&mut bridge, Event::PortUp(1));
    for _second in 0..3 {
        let _second = happen(&mut bridge, Event::Second);
    }
    let _down = happen_within(&mut bridge, Event::PortDown(1), firings);
    bridge
}

/// Receive, migration, detection and information follow one another; topology change comes last of
/// the pass, and selection first of the next one, before role, state and topology change.
#[test]
fn machines_come_to_a_falling_port_in_turn(rt: HostRuntime) -> Result<(), Fail> {
    for firings in 1..9 {
        let bridge = falling(firings);
        for (place, has_come) in have_come(&bridge).iter().enumerate() {
            assert!(rt;
                *has_come == (place < firings),
                "{place} after {firings} firings"
            );
        }
    }
    Ok(())
}

/// The sweep tries selection before the receive machine, and so not last.
#[test]
fn selection_comes_before_receive(rt: HostRuntime) -> Result<(), Fail> {
    let mut bridge = falling(4);
    let _cut = happen_within(&mut bridge, Event::Second, 1);
    if 1 <= bridge.len() {
        let port = bridge.port(1);
        assert!(rt; port.selected);
        assert_eq!(rt; port.edge_delay_while, 2);
    }
    Ok(())
}

/// The information machine comes before the role transitions: an edge port that receives, from a
/// better bridge, a change that it may not yet pass on proposes with flags 0e, and not with 0f.
#[test]
fn information_comes_before_role(rt: HostRuntime) -> Result<(), Fail> {
    let port = PortSettings {
        admin_edge: true,
        auto_edge: false,
        ..USUAL_PORT
    };
    let mut bridge = bridge_of_one(0x02aa_0000_0002, port);
    let _up = happen(&mut bridge, Event::PortUp(1));
    let heard = octets("000002027d800002aa0000000300000000800002aa0000000380010000140002000f0000");
    let proposal = "000002020e800002aa0000000200000000800002aa0000000280010000140002000f0000";
    assert!(rt; sends(receive(&mut bridge, &heard), &[(1, proposal)]));
    Ok(())
}

/// The port's own message in its role as root port is sent not within the pass, but after all other
/// rules: its flags are 44, and not 45.
#[test]
fn transmit_comes_after_all_else(rt: HostRuntime) -> Result<(), Fail> {
    let mut bridge = Bridge::new(BridgeConfig {
        settings: Settings {
            identifier: BridgeId::new(0x8000_02aa_0000_0004),
            hello: 2,
            max_age: 11,
            forward_delay: 11,
            hold: 5,
        },
        ports: &[PortSettings {
            priority: 128,
            cost: 4_294_901_760,
            admin_edge: true,
            auto_edge: true,
            point_to_point: true,
        }],
    });
    let first = "000002023c800002aa0000000400000000800002aa00000004800100000b0002000b0000";
    assert!(rt; sends(happen(&mut bridge, Event::PortUp(1)), &[(1, first)]));
    let heard = octets("000002027f800002aa0000000400000000100002aa00000003800100000b0002000b0000");
    let answer = "0000020244800002aa0000000400000000800002aa00000004800100000b0002000b0000";
    assert!(rt; sends(receive(&mut bridge, &heard), &[(1, answer)]));
    Ok(())
}

/// Returns a port with the usual priority and cost that may detect by itself that it leads to no
/// bridge.
fn usual_port(admin_edge: bool, point_to_point: bool) -> PortSettings {
    PortSettings {
        admin_edge,
        point_to_point,
        ..USUAL_PORT
    }
}

/// Returns a bridge of three ports: on a shared link, point to point, and an edge.
fn bridge_of_three() -> Bridge {
    Bridge::new(BridgeConfig {
        settings: Settings {
            identifier: BridgeId::new(0x8001_02aa_0000_0004),
            hello: 1,
            max_age: 6,
            forward_delay: 9,
            hold: 3,
        },
        ports: &[
            usual_port(false, false),
            usual_port(false, true),
            usual_port(true, true),
        ],
    })
}

/// Returns `true` if the port has this role and passes frames as given.
fn is_so(bridge: &Bridge, port: u8, role: Role, passes: bool) -> bool {
    1 <= port
        && usize::from(port) <= bridge.len()
        && bridge.port(port).role == role
        && bridge.passes(port) == passes
}

/// The sweep tries ports in ascending order: at the last event only port 3 sends, not port 2 as
/// well.
#[test]
fn ports_come_in_ascending_order(rt: HostRuntime) -> Result<(), Fail> {
    let mut bridge = bridge_of_three();
    let at_three = "000002023c800102aa0000000400000000800102aa000000048003000006000100090000";
    assert!(rt; sends(happen(&mut bridge, Event::PortUp(3)), &[(3, at_three)]));
    let at_two = "000002020e800102aa0000000400000000800102aa000000048002000006000100090000";
    assert!(rt; sends(happen(&mut bridge, Event::PortUp(2)), &[(2, at_two)]));
    let two_is_root = "0000020279000002aa0000000100009c40800102aa000000048002020026000100160000";
    let three_is_designated =
        "000002023c000002aa0000000100009c40800102aa000000048003020026000100160000";
    let both = [(2, two_is_root), (3, three_is_designated)];
    let heard = octets("000002027f000002aa0000000100004e20000002aa00000003a004010026000200160000");
    assert!(rt; sends(receive_at(&mut bridge, 2, &heard), &both));
    assert!(rt; sends(happen(&mut bridge, Event::Second), &both));
    let three_alone = [(3, three_is_designated)];
    assert!(rt; sends(happen(&mut bridge, Event::Second), &three_alone));
    assert!(rt; is_so(&bridge, 2, Role::Root, true) && is_so(&bridge, 3, Role::Designated, true));
    let better = octets("000002023d000002aa0000000100000000000002aa000000018002000026000100160000");
    let three_is_root = "0000020279000002aa0000000100004e20800102aa000000048003010026000100160000";
    let last = receive_at(&mut bridge, 3, &better);
    assert_eq!(rt; last.as_ref().map(|outcome| outcome.flush), Some(2));
    assert!(rt; sends(last, &[(3, three_is_root)]));
    assert!(rt; is_so(&bridge, 2, Role::Alternate, false) && is_so(&bridge, 3, Role::Root, true));
    Ok(())
}

/// The order in which rules fire shows in the flags of one message: the first message of the older
/// protocol that the port sends after its neighbour's information is too old. It announces a
/// change, and acknowledges one.
#[test]
fn firing_order_shows_in_flags(rt: HostRuntime) -> Result<(), Fail> {
    let mut bridge = bridge_of_one(0x02aa_0000_0002, USUAL_PORT);
    let _up = happen(&mut bridge, Event::PortUp(1));
    for _second in 0..3 {
        let _second = happen(&mut bridge, Event::Second);
    }
    let _received = receive(&mut bridge, &CONFIG);
    let mut flags = None;
    for _second in 0..8 {
        let sent = sent_in_second(&mut bridge);
        if flags.is_none() && sent.len() == 35 {
            flags = sent.get(4).copied();
        }
    }
    assert_eq!(rt; flags, Some(0x81));
    Ok(())
}
