//! Worked runs of two edges. Their octets and reports come from the rules, not from this program.
ghost use Rattle.std.specs.Prelude.{◌≡◌, ◌+◌, [], ◌∷◌, IfOk, Contains};
ghost use Rattle.ev_edge.specs.Config.{IsConfig, vnis_of};
ghost use Rattle.ev_fabric.specs.Opening.{AreConfigs};

use crate::{Fabric, FabricRefusal, LocalEvent, Step};
use arrayvec::ArrayVec;
use bpdu_wire::BridgeId;
use ether_wire::{Addr, Mac, Out, Page, Vni};
use ev_edge::{EdgeConfig, Limits, PortConfig, Reply};
use mac_arena::Station;
use route_join::Taken;
use rstp_state::{PortSettings, Settings};
use std::alloc::{AllocError, Global};
use std::test::Fail;

mod memory;
mod restarts;
mod runs;

// Edges accept updates from 10.0.0.1, 10.0.0.2 and 10.0.0.3.
fn originators() -> ArrayVec<Addr, 64>
    ensures { result.items ≡ 0x0a00_0001 ∷ 0x0a00_0002 ∷ 0x0a00_0003 ∷ [] }
{
    let mut originators = ArrayVec::new();
    originators.push(Addr::new(0x0a00_0001));
    originators.push(Addr::new(0x0a00_0002));
    originators.push(Addr::new(0x0a00_0003));
    originators
}

fn one_network() -> ArrayVec<Vni, 64>
    ensures { result.items ≡ 5001 ∷ [] }
{
    let mut vnis = ArrayVec::new();
    vnis.push(Vni::new(5001));
    vnis
}

// A port of this VNI that leads to no bridge.
fn port_of(vni: Vni) -> PortConfig
    ensures { result.vni ≡ vni }
{
    PortConfig {
        vni,
        settings: PortSettings {
            priority: 128,
            cost: 20_000,
            admin_edge: true,
            auto_edge: true,
            point_to_point: true,
        },
        limits: Limits::none(),
    }
}

fn two_ports() -> ArrayVec<PortConfig, 64>
    ensures { vnis_of result.items ≡ 5001 ∷ 5001 ∷ [] }
{
    let mut ports = ArrayVec::new();
    ports.push(port_of(Vni::new(5001)));
    ports.push(port_of(Vni::new(5001)));
    ports
}

// A bridge of the usual times.
fn tree(identifier: BridgeId) -> Settings
    ensures { result.hello ≡ 2 }
{
    Settings {
        identifier,
        hello: 2,
        max_age: 20,
        forward_delay: 15,
        hold: 6,
    }
}

// One of the edges 10.0.0.1, 10.0.0.2 and 10.0.0.3, with two ports of VNI 5001.
fn config(address: Addr, identifier: BridgeId) -> EdgeConfig
    requires { Contains (0x0a00_0001 ∷ 0x0a00_0002 ∷ 0x0a00_0003 ∷ []) address }
    ensures address { result.address ≡ address }
    ensures originators { result.originators.items ≡ 0x0a00_0001 ∷ 0x0a00_0002 ∷ 0x0a00_0003 ∷ [] }
    ensures fits { IsConfig result }
{
    EdgeConfig {
        address,
        incarnation: 0,
        originators: originators(),
        vnis: one_network(),
        tree: tree(identifier),
        ageing: 300,
        capacity: 16,
        buckets: 16,
        salt: 0,
        ports: two_ports(),
    }
}

fn first() -> EdgeConfig
    ensures address { result.address ≡ 0x0a00_0001 }
    ensures originators { result.originators.items ≡ 0x0a00_0001 ∷ 0x0a00_0002 ∷ 0x0a00_0003 ∷ [] }
    ensures fits { IsConfig result }
{
    config(Addr::new(0x0a00_0001), BridgeId::new(0x8000_02aa_0000_0001))
}

fn second() -> EdgeConfig
    ensures address { result.address ≡ 0x0a00_0002 }
    ensures originators { result.originators.items ≡ 0x0a00_0001 ∷ 0x0a00_0002 ∷ 0x0a00_0003 ∷ [] }
    ensures fits { IsConfig result }
{
    config(Addr::new(0x0a00_0002), BridgeId::new(0x8000_02aa_0000_0002))
}

fn both(alloc: Global) -> Result<Vec<EdgeConfig>, AllocError>
    ensures { IfOk result (λ configs. AreConfigs configs.items) }
{
    let mut configs = Vec::new(alloc);
    configs.push(first())?;
    configs.push(second())?;
    Ok(configs)
}

fn two(alloc: Global) -> Result<Fabric, AllocError> {
    Fabric::new(alloc, both(alloc)?)
}

// An act of a test.
#[derive(Clone, Copy)]
enum Act {
    /// The port comes up.
    Up(u8),
    /// The port goes down.
    Down(u8),
    /// A broadcast frame of 02:00:00:00:00:N comes at port 1.
    Hear(u8),
    /// A frame for the first of two stations comes at the port, from the second.
    Send(u8, u8, u8),
    /// A datagram comes from the edge of this number, with a frame for the station.
    Reach(u8, u8),
    /// The station is pinned on port 1.
    Pin(u8),
    Announce,
    /// This update of the pool comes.
    Take(usize),
    /// The edge is opened again in this incarnation.
    Restart(u32),
}

// A frame of type 0x0800 and no payload.
fn broadcast(n: u8) -> [u8; 14] {
    [
        0xff, 0xff, 0xff, 0xff, 0xff, 0xff, 0x02, 0x00, 0x00, 0x00, 0x00, n, 0x08, 0x00,
    ]
}

// The same for station `to`, from station `from`.
fn frame(to: u8, from: u8) -> [u8; 14] {
    [
        0x02, 0x00, 0x00, 0x00, 0x00, to, 0x02, 0x00, 0x00, 0x00, 0x00, from, 0x08, 0x00,
    ]
}

// A datagram of VNI 5001 with a frame for a station, from 02:00:00:00:00:ff.
fn datagram(to: u8) -> [u8; 22] {
    [
        0x08, 0x00, 0x00, 0x00, 0x00, 0x13, 0x89, 0x00, 0x02, 0x00, 0x00, 0x00, 0x00, to, 0x02,
        0x00, 0x00, 0x00, 0x00, 0xff, 0x08, 0x00,
    ]
}

// 02:00:00:00:00:n
fn mac(n: u8) -> Mac {
    Mac::new(0x0200_0000_0000 + u64::from(n))
}

fn station(n: u8) -> Station {
    Station {
        vni: Vni::new(5001),
        mac: mac(n),
    }
}

// 10.0.0.e
fn address(e: u8) -> Addr
    ensures { result ≡ 0x0a00_0000 + e }
{
    Addr::new(0x0a00_0000 + u32::from(e))
}

// All steps are made here: if a function makes a step and doesn't name `LocalEvent`, the borrow
// checker doesn't know that type.
fn perform(fabric: &mut Fabric, e: usize, what: Act) -> Result<Reply, FabricRefusal> {
    match what {
        Act::Up(port) => fabric.step(&Step::Local(e, LocalEvent::PortUp(port))),
        Act::Down(port) => fabric.step(&Step::Local(e, LocalEvent::PortDown(port))),
        Act::Hear(n) => fabric.step(&Step::Local(e, LocalEvent::Frame(1, &broadcast(n)))),
        Act::Send(port, to, from) => {
            fabric.step(&Step::Local(e, LocalEvent::Frame(port, &frame(to, from))))
        }
        Act::Reach(from, to) => {
            let event = LocalEvent::TunnelFrame(address(from), &datagram(to));
            fabric.step(&Step::Local(e, event))
        }
        Act::Pin(n) => fabric.step(&Step::Local(e, LocalEvent::Pin(station(n), 1))),
        Act::Announce => fabric.step(&Step::Announce(e)),
        Act::Take(k) => fabric.step(&Step::Deliver(e, k)),
        Act::Restart(n) => fabric.step(&Step::Restart(e, n)),
    }
}

// The outcome of the update in the table, if an update came, or the refusal's number.
fn outcome(fabric: &mut Fabric, e: usize, what: Act) -> Result<Option<Taken>, u8> {
    match perform(fabric, e, what) {
        Ok(reply) => Ok(reply.taken),
        Err(refusal) => Err(refusal.number()),
    }
}

// Lets edge e take update k of the pool, and returns `true` if it is newer than the edge's value.
fn is_newer(fabric: &mut Fabric, e: usize, k: usize) -> bool {
    outcome(fabric, e, Act::Take(k)) == Ok(Some(Taken::Newer))
}

// Lets edge e take update k of the pool, and returns `true` if the edge has it, or a newer one.
fn is_known(fabric: &mut Fabric, e: usize, k: usize) -> bool {
    outcome(fabric, e, Act::Take(k)) == Ok(Some(Taken::Known))
}

// Lets edge e announce, and returns `true` if it announced something.
fn announces(fabric: &mut Fabric, e: usize) -> bool {
    match perform(fabric, e, Act::Announce) {
        Ok(reply) => reply.announced.is_some(),
        Err(_) => false,
    }
}

// Both edges are up, learn the same station and announce it; edge 2 takes edge 1's advert and
// announces its own withdrawal.
fn both_learn(fabric: &mut Fabric) -> bool {
    for e in 1..3usize {
        let _ = perform(fabric, e, Act::Up(1));
        let _ = perform(fabric, e, Act::Hear(0x0a));
    }
    let first = announces(fabric, 1) && announces(fabric, 1);
    let second = announces(fabric, 2) && announces(fabric, 2);
    let taken = is_newer(fabric, 2, 1) && is_newer(fabric, 2, 2);
    first && second && taken && announces(fabric, 2) && fabric.pool().len() == 5
}

// Returns the report of an edge, empty if no edge has this number.
fn report_of(fabric: &Fabric, e: usize) -> Page<1024> {
    let mut page = Page::new();
    if let Some(edge) = fabric.edge(e) {
        let _ = edge.report(&mut page);
    }
    page
}

fn reports(fabric: &Fabric, e: usize, text: &str) -> bool {
    report_of(fabric, e).octets() == text.as_bytes()
}

/// The report of both edges while edge 1 has the station.
const AGREED: &str = "flood 5001 10.0.0.1 1 up\nflood 5001 10.0.0.2 1 up\n\
    mac 5001 02:00:00:00:00:0a 10.0.0.1 2 dynamic 0\n\
    mac 5001 02:00:00:00:00:0a 10.0.0.2 3 withdrawn\n\
    owner 5001 02:00:00:00:00:0a 10.0.0.1\n";

/// The report after the station has moved to edge 2.
const MOVED: &str = "flood 5001 10.0.0.1 1 up\nflood 5001 10.0.0.2 1 up\n\
    mac 5001 02:00:00:00:00:0a 10.0.0.1 3 withdrawn\n\
    mac 5001 02:00:00:00:00:0a 10.0.0.2 4 dynamic 1\n\
    owner 5001 02:00:00:00:00:0a 10.0.0.2\n";

/// The report after edge 1 was opened again, in incarnation 1.
const ANEW: &str = "flood 5001 10.0.0.1 1.1 up\nflood 5001 10.0.0.2 1 up\n\
    mac 5001 02:00:00:00:00:0a 10.0.0.1 1.2 withdrawn\n\
    mac 5001 02:00:00:00:00:0a 10.0.0.2 3 withdrawn\n\
    owner 5001 02:00:00:00:00:0a none\n";

#[test]
fn both_edges_learn_the_same_station(rt: HostRuntime) -> Result<(), Fail> {
    let mut fabric = two(rt.alloc())?;
    assert!(rt; both_learn(&mut fabric));
    for k in 3..6usize {
        assert!(rt; is_newer(&mut fabric, 1, k));
    }
    assert!(rt; reports(&fabric, 1, AGREED));
    assert!(rt; reports(&fabric, 2, AGREED));
    Ok(())
}

#[test]
fn deliveries_in_another_order_and_again(rt: HostRuntime) -> Result<(), Fail> {
    let mut fabric = two(rt.alloc())?;
    assert!(rt; both_learn(&mut fabric));
    assert!(rt; is_newer(&mut fabric, 1, 5));
    assert!(rt; is_known(&mut fabric, 1, 4));
    assert!(rt; is_newer(&mut fabric, 1, 3));
    assert!(rt; reports(&fabric, 1, AGREED));
    assert!(rt; reports(&fabric, 2, AGREED));
    assert!(rt; is_known(&mut fabric, 2, 2));
    assert!(rt; is_known(&mut fabric, 1, 2));
    assert!(rt; !announces(&mut fabric, 1));
    Ok(())
}

#[test]
fn edges_and_updates_are_numbered_from_one(rt: HostRuntime) -> Result<(), Fail> {
    let mut fabric = two(rt.alloc())?;
    assert!(rt; both_learn(&mut fabric));
    assert_eq!(rt; outcome(&mut fabric, 1, Act::Take(0)), Err(19));
    assert_eq!(rt; outcome(&mut fabric, 1, Act::Take(6)), Err(19));
    assert_eq!(rt; outcome(&mut fabric, 0, Act::Take(6)), Err(18));
    assert_eq!(rt; outcome(&mut fabric, 3, Act::Announce), Err(18));
    assert_eq!(rt; outcome(&mut fabric, 3, Act::Restart(1)), Err(18));
    assert_eq!(rt; outcome(&mut fabric, 1, Act::Restart(0)), Err(22));
    Ok(())
}

// After agreement the station comes to edge 2: there are two announcements, and all agree again.
#[test]
fn station_moves_by_two_announcements(rt: HostRuntime) -> Result<(), Fail> {
    let mut fabric = two(rt.alloc())?;
    assert!(rt; both_learn(&mut fabric));
    for k in 3..6usize {
        assert!(rt; is_newer(&mut fabric, 1, k));
    }
    assert_eq!(rt; outcome(&mut fabric, 2, Act::Hear(0x0a)), Ok(None));
    assert!(rt; announces(&mut fabric, 2));
    assert!(rt; is_newer(&mut fabric, 1, 6));
    assert!(rt; announces(&mut fabric, 1));
    assert!(rt; is_newer(&mut fabric, 2, 7));
    assert!(rt; !announces(&mut fabric, 1) && !announces(&mut fabric, 2));
    assert!(rt; reports(&fabric, 1, MOVED));
    assert!(rt; reports(&fabric, 2, MOVED));
    Ok(())
}

#[test]
fn restarted_edge_withdraws_what_comes_back(rt: HostRuntime) -> Result<(), Fail> {
    let mut fabric = two(rt.alloc())?;
    assert!(rt; both_learn(&mut fabric));
    for k in 3..6usize {
        assert!(rt; is_newer(&mut fabric, 1, k));
    }
    assert_eq!(rt; outcome(&mut fabric, 1, Act::Restart(1)), Ok(None));
    assert!(rt; announces(&mut fabric, 1));
    assert!(rt; is_known(&mut fabric, 1, 1));
    assert!(rt; is_newer(&mut fabric, 1, 2));
    assert!(rt; announces(&mut fabric, 1));
    for k in 3..6usize {
        assert!(rt; is_newer(&mut fabric, 1, k));
    }
    assert!(rt; is_newer(&mut fabric, 2, 6));
    assert!(rt; is_newer(&mut fabric, 2, 7));
    assert!(rt; reports(&fabric, 1, ANEW));
    assert!(rt; reports(&fabric, 2, ANEW));
    Ok(())
}

// With ample memory no length or content of the pool is a reason to refuse memory: edge 1 announces
// its flood list in each of 300 incarnations, one after another.
#[test]
fn long_pool_and_many_restarts_are_not_refused(rt: HostRuntime) -> Result<(), Fail> {
    let mut fabric = two(rt.alloc())?;
    for n in 1..301u32 {
        assert!(rt; announces(&mut fabric, 1));
        assert_eq!(rt; fabric.pool().len() as u64, u64::from(n));
        assert_eq!(rt; outcome(&mut fabric, 1, Act::Restart(n)), Ok(None));
    }
    assert!(rt; is_newer(&mut fabric, 2, 1));
    assert!(rt; is_newer(&mut fabric, 2, 300));
    Ok(())
}
