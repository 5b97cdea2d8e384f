//! Worked lines about an edge (docs/script.md) and about its links (docs/running.md).

use crate::{LinkRow, links_of, put_edge_line};
use ether_wire::{Addr, Page, Vni};
use std::test::Fail;

// Whether the line of an edge with these ports and networks is this text.
fn is_line(number: u64, address: Addr, ports: &[Vni], vnis: &[Vni], text: &[u8]) -> bool {
    let mut page = Page::<128>::new();
    put_edge_line(&mut page, number, address, ports, vnis).is_ok() && page.octets() == text
}

#[test]
fn line_of_an_edge_has_its_ports_and_networks(rt: HostRuntime) {
    let (first, second) = (Vni::new(5001), Vni::new(16_777_215));
    let line = b"1 edge 10.0.0.1 ports 1:5001 networks 5001,16777215\n";
    let address = Addr::new(0x0a00_0001);
    assert!(rt; is_line(1, address, &[first], &[first, second], line));
    let line = b"64 edge 192.0.2.254 ports 1:16777215,2:5001,3:5001 networks 5001,16777215\n";
    let address = Addr::new(0xc000_02fe);
    assert!(rt; is_line(64, address, &[second, first, first], &[first, second], line));
}

// The numbers of a link that has none but these.
fn row(system_drops: Option<u64>, idle_out: u64) -> LinkRow {
    LinkRow {
        received: 5120,
        received_octets: 389_120,
        failed_reads: 0,
        idle_in: 0,
        too_long: 0,
        malformed: 0,
        unlisted: 0,
        other_network: 0,
        storm: 0,
        no_memory: 0,
        system_drops,
        sent: 5108,
        sent_octets: 388_208,
        no_room: 0,
        failed_sends: 0,
        idle_out,
    }
}

// The first link is the tunnel's, and the others are those of the ports.
#[test]
fn links_of_an_edge_are_the_tunnel_and_its_ports(rt: HostRuntime) -> Result<(), Fail> {
    let tunnel = LinkRow {
        received_octets: 430_080,
        unlisted: 12,
        sent: 5120,
        sent_octets: 430_080,
        failed_sends: 3,
        ..row(Some(0), 0)
    };
    let text = links_of(rt.alloc(), 1, &[tunnel, row(Some(7), 1)])?;
    let lines = b"1 link tunnel in 5120 octets 430080 failed 0 idle 0 \
long 0 malformed 0 unlisted 12 network 0 storm 0 memory 0 system 0 \
out 5120 octets 430080 dropped 0 failed 3 idle 0\n\
1 link 1 in 5120 octets 389120 failed 0 idle 0 \
long 0 malformed 0 unlisted 0 network 0 storm 0 memory 0 system 7 \
out 5108 octets 388208 dropped 0 failed 0 idle 1\n";
    assert!(rt; text.as_slice() == lines.as_slice());
    Ok(())
}
