//! What no contract of a book says: worked journals, threads that share a book, and refused memory.
ghost use Rattle.std.specs.Prelude.{◌≡◌, ◌<◌, ◌≤◌, ◌∷◌, []};
ghost use Rattle.ev_edge.specs.Config.{IsConfig, vnis_of};

use crate::{Book, Pass};
use arrayvec::ArrayVec;
use bpdu_wire::BridgeId;
use ether_wire::{Addr, Mac, Out, Page, Vni};
use ev_edge::{EdgeConfig, Event, Limits, PortConfig};
use route_join::Taken;
use route_wire::{Advert, Content, Key, Register, Update, Value};
use rstp_state::{PortSettings, Settings};
use std::sync::ledger::Ledger;

mod full;
mod journals;
mod memory;
mod threads;

// The address 10.0.0.N.
fn addr(n: u8) -> Addr {
    Addr::new(0x0a00_0000 + u32::from(n))
}

fn vni() -> Vni
    ensures { result ≡ 5001 }
{
    Vni::new(5001)
}

// The host 02:00:00:00:00:0a.
fn host() -> Mac {
    Mac::new(0x0200_0000_000a)
}

// The edge listens to itself and to 10.0.0.1.
fn originators() -> ArrayVec<Addr, 64>
    ensures { result.items ≡ 167772161 ∷ 167772162 ∷ [] }
{
    let mut originators = ArrayVec::new();
    originators.push(Addr::new(0x0a00_0001));
    originators.push(Addr::new(0x0a00_0002));
    originators
}

// A port of network 5001 that leads to no bridge: it learns as soon as it is up.
fn port() -> PortConfig
    ensures { result.vni ≡ 5001 }
{
    PortConfig {
        vni: vni(),
        settings: PortSettings {
            priority: 128,
            cost: 20_000,
            admin_edge: true,
            auto_edge: true,
            point_to_point: true,
        },
        limits: Limits::none(),
    }
}

fn one_port() -> ArrayVec<PortConfig, 64>
    ensures { vnis_of result.items ≡ 5001 ∷ [] }
{
    let mut ports = ArrayVec::new();
    ports.push(port());
    ports
}

fn one_network() -> ArrayVec<Vni, 64>
    ensures { result.items ≡ 5001 ∷ [] }
{
    let mut vnis = ArrayVec::new();
    vnis.push(vni());
    vnis
}

// A bridge of the usual priority and times.
fn tree() -> Settings
    ensures { result.hello ≡ 2 }
{
    Settings {
        identifier: BridgeId::new(0x8000_02aa_0000_0002),
        hello: 2,
        max_age: 20,
        forward_delay: 15,
        hold: 6,
    }
}

// The edge 10.0.0.2 with a port of network 5001, in this incarnation.
fn config(incarnation: u32) -> EdgeConfig
    ensures { IsConfig result }
{
    sized_config(incarnation, 8)
}

// The same with room for so many stations.
fn sized_config(incarnation: u32, stations: usize) -> EdgeConfig
    requires some { 1 ≤ stations }
    requires few { stations ≤ 65536 }
    ensures { IsConfig result }
{
    EdgeConfig {
        address: Addr::new(0x0a00_0002),
        incarnation,
        originators: originators(),
        vnis: one_network(),
        tree: tree(),
        ageing: 300,
        capacity: stations,
        buckets: stations,
        salt: 0,
        ports: one_port(),
    }
}

fn dynamic(sequence: u32) -> Content {
    Content::Advert(Advert {
        is_static: false,
        sequence,
        label2: None,
    })
}

// 10.0.0.N advertises the host 02:00:00:00:00:0a in this network, in its first incarnation.
fn said(n: u8, vni: Vni, counter: u64, sequence: u32) -> Update
    requires { 0 < counter }
{
    let register = Register {
        originator: addr(n),
        key: Key::Mac(vni, Mac::new(0x0200_0000_000a), None),
    };
    let value = Value {
        incarnation: 0,
        counter,
        content: dynamic(sequence),
    };
    Update::new(register, value)
}

// The table's answer to an update, if it is not refused.
fn take<L: Ledger>(book: &mut Book<L>, pass: &mut Pass<L>, update: Update) -> Option<Taken> {
    match book.enter(pass, &Event::Take(update)) {
        Ok(reply) => reply.taken,
        Err(_) => None,
    }
}

// A broadcast frame of the host comes at port 1, which is up then: whether neither is refused.
fn hears<L: Ledger>(book: &mut Book<L>, pass: &mut Pass<L>) -> bool {
    let frame = [
        0xff, 0xff, 0xff, 0xff, 0xff, 0xff, 0x02, 0x00, 0x00, 0x00, 0x00, 0x0a, 0x08, 0x00,
    ];
    book.enter(pass, &Event::PortUp(1)).is_ok()
        && book.enter(pass, &Event::Frame(1, &frame)).is_ok()
}

// The records of the journal.
fn journal<L: Ledger>(book: &Book<L>) -> Page<2048> {
    let mut page = Page::new();
    if page.failures() == 0 {
        let _ = book.write_journal(&mut page);
    }
    page
}

// The report of the edge.
fn report<L: Ledger>(book: &Book<L>) -> Page<2048> {
    let mut page = Page::new();
    if page.failures() == 0 {
        let _ = book.edge().report(&mut page);
    }
    page
}
