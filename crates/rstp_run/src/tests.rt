//! Whole runs with the sent octets, which the definitions don't show by themselves.

mod lone_port;
mod order;
mod root_port;
mod two_bridges;

use crate::bridge::{Bridge, BridgeConfig};
use crate::event::{Event, Outcome};
use arrayvec::ArrayVec;
use bpdu_wire::{BridgeId, read, write};
use rstp_state::{PortSettings, Settings};

/// The first message of a designated port of bridge 8000.02:aa:00:00:00:01: the bridge is its own
/// root, and the port proposes.
const FIRST_PROPOSAL: [u8; 36] = [
    0x00, 0x00, 0x02, 0x02, 0x0e, 0x80, 0x00, 0x02, 0xaa, 0x00, 0x00, 0x00, 0x01, 0x00, 0x00, 0x00,
    0x00, 0x80, 0x00, 0x02, 0xaa, 0x00, 0x00, 0x00, 0x01, 0x80, 0x01, 0x00, 0x00, 0x14, 0x00, 0x02,
    0x00, 0x0f, 0x00, 0x00,
];

/// Returns a port with the usual settings.
const USUAL_PORT: PortSettings = PortSettings {
    priority: 128,
    cost: 20000,
    admin_edge: false,
    auto_edge: true,
    point_to_point: true,
};

/// Returns a bridge with the usual priority and times, and one port.
fn bridge_of_one(address: u64, port: PortSettings) -> Bridge {
    let settings = Settings {
        identifier: BridgeId::new(0x8000_0000_0000_0000 | address),
        hello: 2,
        max_age: 20,
        forward_delay: 15,
        hold: 6,
    };
    Bridge::new(BridgeConfig {
        settings,
        ports: &[port],
    })
}

/// Processes the event with at most `limit` firings. Returns `None` if the bridge lacks the event's
/// port or `limit` is out of range.
fn happen_within(bridge: &mut Bridge, event: Event, limit: usize) -> Option<Outcome> {
    let ports = bridge.len();
    let is_there = match event {
        Event::Second => true,
        Event::Bpdu(p, _) | Event::PortUp(p) | Event::PortDown(p) | Event::Mcheck(p) => {
            1 <= p && usize::from(p) <= ports
        }
    };
    if is_there && 1 <= limit && limit <= 64 * (ports + 1) {
        Some(bridge.event_within(event, limit))
    } else {
        None
    }
}

/// Processes the event. Returns `None` if the bridge lacks the event's port.
fn happen(bridge: &mut Bridge, event: Event) -> Option<Outcome> {
    let limit = 64 * (bridge.len() + 1);
    happen_within(bridge, event, limit)
}

/// Returns the octets of the event's first message, if it is sent at port 1; otherwise none.
fn sent_by(outcome: Option<Outcome>) -> ArrayVec<u8, 36> {
    match outcome {
        Some(outcome) => match outcome.out.first() {
            Some((1, bpdu)) => write(bpdu),
            _ => ArrayVec::new(),
        },
        None => ArrayVec::new(),
    }
}

/// Returns the octets that the bridge sends at port 1 when a second passes.
fn sent_in_second(bridge: &mut Bridge) -> ArrayVec<u8, 36> {
    sent_by(happen(bridge, Event::Second))
}

/// Processes the message with these octets at the port.
fn receive_at(bridge: &mut Bridge, port: u8, octets: &[u8]) -> Option<Outcome> {
    match read(octets) {
        Ok(bpdu) => happen(bridge, Event::Bpdu(port, bpdu)),
        Err(_) => None,
    }
}

/// Processes the message with these octets at port 1.
fn receive(bridge: &mut Bridge, octets: &[u8]) -> Option<Outcome> {
    receive_at(bridge, 1, octets)
}

fn passes(bridge: &Bridge) -> bool {
    1 <= bridge.len() && bridge.passes(1)
}

fn learns(bridge: &Bridge) -> bool {
    1 <= bridge.len() && bridge.learns(1)
}
