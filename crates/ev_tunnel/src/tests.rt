//! Decisions with a few edges and ports, and a datagram.
ghost use Rattle.std.specs.Prelude.{◌≡◌, false, None};
ghost use Rattle.route_wire.specs.Fields.{FitsKey};
ghost use Rattle.ether_wire.specs.Ports.{IsPort};
ghost use Rattle.ev_tunnel.specs.Decision.{IsFrom};
ghost use Rattle.std.specs.Option.{ForSome};

use crate::{Decision, Forwarding, Source, decide, decide_into, unwrap_datagram, wrap};
use arrayvec::ArrayVec;
use ether_wire::{Addr, Mac, NO_PORTS, Vni};
use route_join::Table;
use route_wire::{Advert, Content, Key, Register, Update, Value};
use std::alloc::Global;
use std::test::Fail;

// The address 10.0.0.N.
fn addr(n: u8) -> Addr {
    Addr::new(0x0a00_0000 + u32::from(n))
}

fn vni() -> Vni {
    Vni::new(5001)
}

fn broadcast() -> Mac {
    Mac::new(0xffff_ffff_ffff)
}

fn host() -> Mac {
    Mac::new(0x0200_0000_000a)
}

fn plain_advert() -> Content
    ensures { result ≡ Content.Advert (record { is_static = false; sequence = 0; label2 = None }) }
{
    Content::Advert(Advert {
        is_static: false,
        sequence: 0,
        label2: None,
    })
}

fn flood(n: u8, content: Content) -> Update
    requires { FitsKey (Key.Flood 5001) content }
{
    Update::new(
        Register {
            originator: addr(n),
            key: Key::Flood(Vni::new(5001)),
        },
        Value {
            incarnation: 0,
            counter: 1,
            content,
        },
    )
}

// 10.0.0.N advertises the host.
fn host_at(n: u8) -> Update {
    Update::new(
        Register {
            originator: addr(n),
            key: Key::Mac(Vni::new(5001), Mac::new(0x0200_0000_000a), None),
        },
        Value {
            incarnation: 0,
            counter: 1,
            content: plain_advert(),
        },
    )
}

// A table that listens to 10.0.0.1 to 10.0.0.4.
fn new_table(alloc: Global) -> Table {
    let mut originators = ArrayVec::new();
    originators.push(Addr::new(0x0a00_0001));
    originators.push(Addr::new(0x0a00_0002));
    originators.push(Addr::new(0x0a00_0003));
    originators.push(Addr::new(0x0a00_0004));
    Table::new(alloc, originators)
}

// A table in which the first three originators advertise the VNI's flood list, and the last one has
// withdrawn it.
fn flooded(alloc: Global) -> Result<Table, Fail> {
    let mut table = new_table(alloc);
    table.take(&flood(3, plain_advert()))?;
    table.take(&flood(1, plain_advert()))?;
    table.take(&flood(2, plain_advert()))?;
    table.take(&flood(4, Content::Withdrawn))?;
    Ok(table)
}

// The decision at edge 10.0.0.1, whose ports 1 to 3 are in the network and of which 1 and 3 pass.
fn decided(destination: Mac, from: Source, entry: Option<u8>, table: &Table) -> Decision
    requires from { IsFrom from }
    requires entry { ForSome entry IsPort }
{
    decide(destination, vni(), from, entry, table, addr(1), 7, 5)
}

fn goes(decision: &Decision, local: u64, remote: &[Addr]) -> bool {
    decision.local == local && decision.remote.as_slice() == remote
}

#[test]
fn broadcast_from_a_port_goes_to_the_other_passing_ports_and_edges(
    rt: HostRuntime,
) -> Result<(), Fail> {
    let table = flooded(rt.alloc())?;
    let decision = decided(broadcast(), Source::Port(1), None, &table);
    assert!(rt; goes(&decision, 4, &[addr(2), addr(3)]));
    Ok(())
}

#[test]
fn broadcast_from_a_tunnel_goes_to_no_tunnel(rt: HostRuntime) -> Result<(), Fail> {
    let table = flooded(rt.alloc())?;
    assert!(rt; goes(&decided(broadcast(), Source::Tunnel, None, &table), 5, &[]));
    Ok(())
}

#[test]
fn unknown_address_is_flooded(rt: HostRuntime) -> Result<(), Fail> {
    let table = flooded(rt.alloc())?;
    let decision = decided(host(), Source::Port(3), None, &table);
    assert!(rt; goes(&decision, 1, &[addr(2), addr(3)]));
    Ok(())
}

#[test]
fn learnt_address_goes_to_its_port_alone(rt: HostRuntime) -> Result<(), Fail> {
    let table = flooded(rt.alloc())?;
    assert!(rt; goes(&decided(host(), Source::Port(1), Some(3), &table), 4, &[]));
    assert!(rt; goes(&decided(host(), Source::Tunnel, Some(3), &table), 4, &[]));
    Ok(())
}

#[test]
fn learnt_address_on_a_blocked_or_its_own_port_goes_nowhere(rt: HostRuntime) -> Result<(), Fail> {
    let table = flooded(rt.alloc())?;
    assert!(rt; goes(&decided(host(), Source::Port(1), Some(2), &table), 0, &[]));
    assert!(rt; goes(&decided(host(), Source::Port(3), Some(3), &table), 0, &[]));
    Ok(())
}

#[test]
fn learnt_port_is_not_asked_for_membership(rt: HostRuntime) -> Result<(), Fail> {
    let table = flooded(rt.alloc())?;
    let decision = decide(
        host(),
        vni(),
        Source::Port(1),
        Some(4),
        &table,
        addr(1),
        7,
        0xd,
    );
    assert!(rt; goes(&decision, 8, &[]));
    Ok(())
}

#[test]
fn address_of_another_edge_goes_there_alone(rt: HostRuntime) -> Result<(), Fail> {
    let mut table = flooded(rt.alloc())?;
    table.take(&host_at(3))?;
    assert!(rt;
        goes(
            &decided(host(), Source::Port(1), None, &table),
            0,
            &[addr(3)]
        )
    );
    assert!(rt; goes(&decided(host(), Source::Tunnel, None, &table), 0, &[]));
    Ok(())
}

// The decision at edge 10.0.0.1 on a frame at port 1 while 10.0.0.N is away.
fn decided_without(n: u8, destination: Mac, table: &Table) -> Decision {
    let mut away = ArrayVec::new();
    away.push(addr(n));
    let mut decision = Decision {
        local: NO_PORTS,
        remote: ArrayVec::new(),
    };
    let forwarding = Forwarding {
        destination,
        vni: vni(),
        from: Source::Port(1),
        learnt: None,
        table,
        own: addr(1),
        away: &away,
    };
    decide_into(forwarding, 7, 5, &mut decision);
    decision
}

#[test]
fn broadcast_goes_to_no_edge_that_is_away(rt: HostRuntime) -> Result<(), Fail> {
    let table = flooded(rt.alloc())?;
    assert!(rt; goes(&decided_without(3, broadcast(), &table), 4, &[addr(2)]));
    assert!(rt; goes(&decided_without(2, broadcast(), &table), 4, &[addr(3)]));
    assert!(rt;
        goes(
            &decided_without(4, broadcast(), &table),
            4,
            &[addr(2), addr(3)]
        )
    );
    Ok(())
}

#[test]
fn address_of_an_edge_that_is_away_is_flooded(rt: HostRuntime) -> Result<(), Fail> {
    let mut table = flooded(rt.alloc())?;
    table.take(&host_at(3))?;
    assert!(rt; goes(&decided_without(3, host(), &table), 4, &[addr(2)]));
    assert!(rt; goes(&decided_without(2, host(), &table), 0, &[addr(3)]));
    Ok(())
}

// The network and the destination of the frame that a datagram carries.
fn carried(datagram: &[u8]) -> Option<(Vni, Mac)> {
    match unwrap_datagram(datagram) {
        Ok((network, frame)) if frame.len() >= 6 => Some((network, Mac::from_octets(frame))),
        _ => None,
    }
}

#[test]
fn broadcast_of_a_remote_edge_goes_to_the_passing_ports(rt: HostRuntime) -> Result<(), Fail> {
    let datagram: [u8; 22] = [
        0x08, 0x00, 0x00, 0x00, 0x00, 0x13, 0x89, 0x00, 0xff, 0xff, 0xff, 0xff, 0xff, 0xff, 0x02,
        0x00, 0x00, 0x00, 0x00, 0x0b, 0x08, 0x00,
    ];
    assert!(rt; carried(&datagram) == Some((vni(), broadcast())));
    let table = flooded(rt.alloc())?;
    let decision = decide(
        broadcast(),
        vni(),
        Source::Tunnel,
        None,
        &table,
        addr(1),
        3,
        3,
    );
    assert!(rt; goes(&decision, 3, &[]));
    Ok(())
}

#[test]
fn frame_is_wrapped_behind_its_header(rt: HostRuntime) {
    let mut buffer = [0xee; 9026];
    let size = wrap(&mut buffer, vni(), &[0xaa, 0xbb, 0xcc]);
    let expected: [u8; 12] = [
        0x08, 0x00, 0x00, 0x00, 0x00, 0x13, 0x89, 0x00, 0xaa, 0xbb, 0xcc, 0xee,
    ];
    assert_eq!(rt; size, 11);
    assert_eq!(rt; &buffer[..12], expected.as_slice());
}

#[test]
fn longest_frame_fits_the_buffer(rt: HostRuntime) {
    let mut buffer = [0; 9026];
    let size = wrap(&mut buffer, vni(), &[0x55; 9018]);
    assert_eq!(rt; size, 9026);
    assert!(rt; buffer[9025] == 0x55);
}
