//! Roots and roles selected among a few ports.
use crate::port::{InfoIs, PortState, Role};
use crate::selection::{Root, select_roles};
use crate::start::{PortSettings, Settings, start_port};
use crate::vector::{Times, Vector, superior};
use bpdu_wire::{BridgeId, PortId};

/// Bridge 8000.02:aa:00:00:00:NN.
fn bridge(last_octet: u8) -> BridgeId {
    BridgeId::from_parts(0x8000, 0x02aa_0000_0000 + u64::from(last_octet))
}

fn settings() -> Settings {
    Settings {
        identifier: bridge(2),
        hello: 2,
        max_age: 20,
        forward_delay: 15,
        hold: 6,
    }
}

/// Returns the vector that a bridge sends about its path to bridge 1.
fn vector(cost: u32, last_octet: u8, port: u16) -> Vector {
    Vector {
        root: bridge(1),
        cost,
        bridge: bridge(last_octet),
        port: PortId::new(port),
    }
}

/// Returns the port with this number, of cost 20,000, after it received this vector.
fn told(number: u8, port_priority: Vector) -> PortState {
    let port_settings = PortSettings {
        priority: 128,
        cost: 20_000,
        admin_edge: false,
        auto_edge: true,
        point_to_point: true,
    };
    let mut port = start_port(&settings(), &port_settings, number);
    port.info_is = InfoIs::Received;
    port.port_priority = port_priority;
    port
}

fn roles(ports: &[PortState; 4]) -> [(Role, bool); 4] {
    let [a, b, c, d] = ports;
    [
        (a.selected_role, a.update_info),
        (b.selected_role, b.update_info),
        (c.selected_role, c.update_info),
        (d.selected_role, d.update_info),
    ]
}

#[test]
fn four_ports_have_four_roles(rt: HostRuntime) {
    let mut ports = [
        told(1, vector(0, 1, 0x8001)),
        told(2, vector(20_000, 3, 0x8002)),
        told(3, vector(20_000, 2, 0x8002)),
        told(4, vector(10_000, 3, 0x8001)),
    ];
    let root = select_roles(&settings(), &mut ports);
    let expected = [
        (Role::Root, false),
        (Role::Designated, true),
        (Role::Backup, false),
        (Role::Alternate, false),
    ];
    assert_eq!(rt; roles(&ports), expected);
    assert_eq!(rt; root.priority.root, bridge(1));
    assert_eq!(rt; root.priority.cost, 20_000);
    assert_eq!(rt; root.times.message_age, 1);
}

#[test]
fn bridge_that_is_told_nothing_is_root(rt: HostRuntime) {
    let own = Root::own(&settings());
    let mut ports = [told(1, vector(0, 2, 0x8002))];
    let root = select_roles(&settings(), &mut ports);
    assert_eq!(rt; root, own);
    assert_eq!(rt; root.priority.root, bridge(2));
}

#[test]
fn same_sender_with_other_words_is_superior(rt: HostRuntime) {
    let times = Times {
        message_age: 0,
        max_age: 20,
        hello: 2,
        forward_delay: 15,
    };
    let known = vector(20_000, 3, 0x8001);
    let worse = vector(30_000, 3, 0x8001);
    let other = vector(30_000, 4, 0x8001);
    assert_eq!(rt; superior(&worse, &times, &known, &times), true);
    assert_eq!(rt; superior(&other, &times, &known, &times), false);
    assert_eq!(rt; superior(&known, &times, &known, &times), false);
    assert_eq!(rt; superior(&known, &times, &worse, &times), true);
}
