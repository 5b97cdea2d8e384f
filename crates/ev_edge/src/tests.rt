//! Behaviour that the definitions don't show by themselves: worked events, and refused memory.
ghost use Rattle.std.specs.Prelude.{◌≡◌, ◌<◌, ◌≤◌, ◌∷◌, []};
ghost use Rattle.ev_edge.specs.Config.{IsConfig, vnis_of};

use crate::{Edge, EdgeConfig, Event, Limits, PortConfig, Refusal, Reply};
use arrayvec::ArrayVec;
use bpdu_wire::BridgeId;
use ether_wire::{Addr, Mac, Vni};
use mac_arena::Station;
use route_wire::{Advert, Content, Key, Register, Update, Value};
use rstp_state::{PortSettings, Settings};
use std::alloc::{AllocError, Global};

mod away;
mod frames;
mod learning;
mod limits;
mod lines;
mod memory;
mod pins;
mod storms;
mod updates;

/// The station 02:00:00:00:00:0a.
const HOST: u64 = 0x0200_0000_000a;

/// The station 02:00:00:00:00:0b.
const OTHER: u64 = 0x0200_0000_000b;

const BROADCAST: u64 = 0xffff_ffff_ffff;

/// A group address, which is learnt nowhere.
const NOBODY: u64 = 0x0300_0000_0001;

// The address 10.0.0.N.
fn addr(n: u8) -> Addr {
    Addr::new(0x0a00_0000 + u32::from(n))
}

// The address of the lowest 48 bits.
fn mac_of(number: u64) -> Mac {
    Mac::new(number % 0x1_0000_0000_0000)
}

// The station of network 5001 with this address.
fn station(mac: u64) -> Station {
    Station {
        vni: Vni::new(5001),
        mac: mac_of(mac),
    }
}

// The station of network 5002 with this address.
fn elsewhere(mac: u64) -> Station {
    Station {
        vni: Vni::new(5002),
        mac: mac_of(mac),
    }
}

// Edges listen to 10.0.0.1 to 10.0.0.4.
fn originators() -> ArrayVec<Addr, 64>
    ensures { result.items ≡ 167772161 ∷ 167772162 ∷ 167772163 ∷ 167772164 ∷ [] }
{
    let mut originators = ArrayVec::new();
    originators.push(Addr::new(0x0a00_0001));
    originators.push(Addr::new(0x0a00_0002));
    originators.push(Addr::new(0x0a00_0003));
    originators.push(Addr::new(0x0a00_0004));
    originators
}

// A port of this VNI. With `admin_edge` it passes as soon as it is up.
fn port_of(vni: Vni, admin_edge: bool) -> PortConfig
    ensures { result.vni ≡ vni }
{
    PortConfig {
        vni,
        settings: PortSettings {
            priority: 128,
            cost: 20_000,
            admin_edge,
            auto_edge: true,
            point_to_point: true,
        },
        limits: Limits::none(),
    }
}

// Three ports of network 5001 that lead to no bridge. The first one has these limits.
fn three_ports(limits: Limits) -> ArrayVec<PortConfig, 64>
    ensures { vnis_of result.items ≡ 5001 ∷ 5001 ∷ 5001 ∷ [] }
{
    let mut ports = ArrayVec::new();
    ports.push(PortConfig {
        limits,
        ..port_of(Vni::new(5001), true)
    });
    ports.push(port_of(Vni::new(5001), true));
    ports.push(port_of(Vni::new(5001), true));
    ports
}

fn one_network() -> ArrayVec<Vni, 64>
    ensures { result.items ≡ 5001 ∷ [] }
{
    let mut vnis = ArrayVec::new();
    vnis.push(Vni::new(5001));
    vnis
}

// A bridge of the usual priority and times.
fn tree() -> Settings
    ensures { result.hello ≡ 2 }
{
    Settings {
        identifier: BridgeId::new(0x8000_02aa_0000_0002),
        hello: 2,
        max_age: 20,
        forward_delay: 15,
        hold: 6,
    }
}

// The edge 10.0.0.2 with three ports of network 5001, in this incarnation.
fn config(incarnation: u32, capacity: usize, ageing: u64) -> EdgeConfig
    requires some { 1 ≤ capacity }
    requires few { capacity ≤ 65536 }
    ensures { IsConfig result }
{
    limited_config(incarnation, capacity, ageing, Limits::none())
}

// The same whose port 1 has these limits.
fn limited_config(incarnation: u32, capacity: usize, ageing: u64, limits: Limits) -> EdgeConfig
    requires some { 1 ≤ capacity }
    requires few { capacity ≤ 65536 }
    ensures { IsConfig result }
{
    EdgeConfig {
        address: Addr::new(0x0a00_0002),
        incarnation,
        originators: originators(),
        vnis: one_network(),
        tree: tree(),
        ageing,
        capacity,
        buckets: capacity,
        salt: 0,
        ports: three_ports(limits),
    }
}

// The edge's first or later incarnation, with this capacity and ageing time. Its ports 1 and 2 are
// up.
fn open(alloc: Global, incarnation: u32, capacity: usize, ageing: u64) -> Result<Edge, AllocError>
    requires some { 1 ≤ capacity }
    requires few { capacity ≤ 65536 }
{
    let mut edge = Edge::open(alloc, config(incarnation, capacity, ageing))?;
    let _ = step(&mut edge, &Event::PortUp(1));
    let _ = step(&mut edge, &Event::PortUp(2));
    Ok(edge)
}

// The edge's first incarnation with room for 16 stations, whose port 1 has these limits. Its ports
// 1 and 2 are up.
fn open_limited(alloc: Global, limits: Limits) -> Result<Edge, AllocError> {
    let mut edge = Edge::open(alloc, limited_config(0, 16, 300, limits))?;
    let _ = step(&mut edge, &Event::PortUp(1));
    let _ = step(&mut edge, &Event::PortUp(2));
    Ok(edge)
}

// Such an edge with room for eight stations, by the first try that isn't refused memory.
fn made(alloc: Global, incarnation: u32) -> Option<Edge> {
    for _ in 0..60 {
        if let Ok(edge) = open(alloc, incarnation, 8, 300) {
            return Some(edge);
        }
    }
    None
}

// An event of which no more is known than that it happens.
fn step(edge: &mut Edge, event: &Event<'_>) -> Result<Reply, Refusal> {
    edge.step(event)
}

// A frame of type 0x0800 and no payload.
fn frame(destination: u64, source: u64) -> [u8; 14] {
    let to = destination.to_be_bytes();
    let by = source.to_be_bytes();
    [
        to[2], to[3], to[4], to[5], to[6], to[7], by[2], by[3], by[4], by[5], by[6], by[7], 8, 0,
    ]
}

fn advert(is_static: bool, sequence: u32) -> Content {
    Content::Advert(Advert {
        is_static,
        sequence,
        label2: None,
    })
}

// 10.0.0.N says this of the host 02:00:00:00:00:0a.
fn said(n: u8, incarnation: u32, counter: u64, content: Content) -> Update
    requires { 0 < counter }
{
    let register = Register {
        originator: addr(n),
        key: Key::Mac(Vni::new(5001), Mac::new(0x0200_0000_000a), None),
    };
    let value = Value {
        incarnation,
        counter,
        content,
    };
    Update::new(register, value)
}

// 10.0.0.N advertises the flood list.
fn flood(n: u8) -> Update {
    let register = Register {
        originator: addr(n),
        key: Key::Flood(Vni::new(5001)),
    };
    let value = Value {
        incarnation: 0,
        counter: 1,
        content: Content::Advert(Advert {
            is_static: false,
            sequence: 0,
            label2: None,
        }),
    };
    Update::new(register, value)
}

// The number of the alert, 0 for none, and 100 for a refusal.
fn alert_of(outcome: Result<Reply, Refusal>) -> u8 {
    match outcome {
        Ok(reply) => match reply.alert {
            Some(alert) => alert.number(),
            None => 0,
        },
        Err(_) => 100,
    }
}

// The refusal, if it is one.
fn refusal_of(outcome: Result<Reply, Refusal>) -> Option<Refusal> {
    match outcome {
        Ok(_) => None,
        Err(refusal) => Some(refusal),
    }
}

// The alert of an event.
fn told(edge: &mut Edge, event: &Event<'_>) -> u8 {
    alert_of(step(edge, event))
}

// The alert of a broadcast frame of this station at the port.
fn import(edge: &mut Edge, port: u8, source: u64) -> u8 {
    told(edge, &Event::Frame(port, &frame(BROADCAST, source)))
}

// The receivers of a frame: its local ports, and the number of edges.
fn sent(outcome: Result<Reply, Refusal>) -> Option<(u64, usize)> {
    match outcome {
        Ok(reply) => match reply.decision {
            Some(decision) => Some((decision.local, decision.remote.len())),
            None => None,
        },
        Err(_) => None,
    }
}

// The receivers of a frame at the port from which nothing is learnt.
fn route(edge: &mut Edge, port: u8, destination: u64) -> Option<(u64, usize)> {
    sent(step(edge, &Event::Frame(port, &frame(destination, NOBODY))))
}

// So many seconds pass.
fn seconds(edge: &mut Edge, count: u64) {
    for _ in 0..count {
        let _ = step(edge, &Event::Second);
    }
}

// The edge's own update of a station: its number and content.
fn says(edge: &Edge, mac: u64) -> Option<(u64, Content)> {
    let key = Key::Mac(Vni::new(5001), mac_of(mac), None);
    match edge.table().register(Addr::new(0x0a00_0002), key) {
        None => None,
        Some(update) => Some((update.value().counter, update.value().content)),
    }
}
