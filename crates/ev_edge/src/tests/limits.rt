//! The limits of ports: a port with as many stations as it may have, or with as many new ones
//! within 60 seconds, learns no further one and forwards the frame.
ghost use Rattle.std.specs.Prelude.{◌<◌};

use super::lines::{Line, first_wrong};
use super::{BROADCAST, HOST, OTHER, advert, frame, import, open_limited, said, station, step};
use crate::{Edge, Event, Limits};
use ev_mobility::Alert;
use route_join::Taken;
use route_wire::Content;
use std::alloc::{AllocError, Global};
use std::test::Fail;

/// The station 02:00:00:00:00:0c.
const THIRD: u64 = 0x0200_0000_000c;

/// An edge whose ports 1 and 2 are up. Port 1 has these limits, and the other ports have none.
fn limited(
    alloc: Global,
    stations: Option<u64>,
    new_stations: Option<u64>,
) -> Result<Edge, AllocError> {
    let limits = Limits {
        stations,
        new_stations,
        storm: None,
    };
    open_limited(alloc, limits)
}

/// The alert of a broadcast frame of this station at the port.
fn alert(edge: &mut Edge, port: u8, source: u64) -> Option<Alert> {
    match step(edge, &Event::Frame(port, &frame(BROADCAST, source))) {
        Ok(reply) => reply.alert,
        Err(_) => None,
    }
}

#[test]
fn full_port_learns_no_further_station(rt: HostRuntime) -> Result<(), Fail> {
    let mut edge = limited(rt.alloc(), Some(1), None)?;
    let octets = frame(BROADCAST, OTHER);
    let lines = [
        Line::Hear(1, HOST, 0),
        Line::Hear(1, HOST, 0),
        Line::Hear(1, OTHER, 7),
        Line::Sent(Event::Frame(1, &octets), Some((0b10, 0))),
        Line::Silent(OTHER),
        Line::Keeps(1, 2),
        Line::Hear(2, OTHER, 0),
        Line::Hear(2, THIRD, 0),
        Line::Keeps(3, 4),
    ];
    assert_eq!(rt; first_wrong(&mut edge, &lines), None);
    assert_eq!(rt;
        alert(&mut edge, 1, 0x0200_0000_000d),
        Some(Alert::PortFull(1))
    );
    Ok(())
}

// The station stays where it is: the full port counts as one that doesn't learn.
#[test]
fn station_of_another_port_finds_no_place_at_a_full_one(rt: HostRuntime) -> Result<(), Fail> {
    let mut edge = limited(rt.alloc(), Some(1), None)?;
    let lines = [
        Line::Hear(1, HOST, 0),
        Line::Hear(2, OTHER, 0),
        Line::Hear(1, OTHER, 7),
        Line::Route(1, OTHER, 0b10, 0),
        Line::Hear(2, HOST, 0),
        Line::Hear(1, OTHER, 0),
        Line::Route(2, OTHER, 0b1, 0),
        Line::Keeps(2, 3),
    ];
    assert_eq!(rt; first_wrong(&mut edge, &lines), None);
    Ok(())
}

#[test]
fn place_of_an_old_station_is_free_again(rt: HostRuntime) -> Result<(), Fail> {
    let mut edge = limited(rt.alloc(), Some(1), None)?;
    let lines = [
        Line::Hear(1, HOST, 0),
        Line::Hear(1, OTHER, 7),
        Line::Pass(300),
        Line::Hear(1, OTHER, 0),
        Line::Keeps(1, 4),
    ];
    assert_eq!(rt; first_wrong(&mut edge, &lines), None);
    Ok(())
}

// Pins need no place, and take one.
#[test]
fn pinned_station_takes_a_place(rt: HostRuntime) -> Result<(), Fail> {
    let mut edge = limited(rt.alloc(), Some(1), None)?;
    let lines = [
        Line::Told(Event::Pin(station(HOST), 1), 0),
        Line::Hear(1, OTHER, 7),
        Line::Told(Event::Pin(station(OTHER), 1), 0),
        Line::Keeps(2, 3),
        Line::Hear(1, THIRD, 7),
    ];
    assert_eq!(rt; first_wrong(&mut edge, &lines), None);
    Ok(())
}

// The first window starts at second 0, the next one with the first new station at second 60 or
// later.
#[test]
fn new_stations_are_counted_for_60_seconds(rt: HostRuntime) -> Result<(), Fail> {
    let mut edge = limited(rt.alloc(), None, Some(2))?;
    let lines = [
        Line::Pass(59),
        Line::Hear(1, 1, 0),
        Line::Hear(1, 3, 0),
        Line::Hear(1, 5, 8),
        Line::Hear(1, 1, 0),
        Line::Keeps(2, 3),
        Line::Pass(1),
        Line::Hear(1, 5, 0),
        Line::Hear(1, 7, 0),
        Line::Hear(1, 9, 8),
        Line::Pass(59),
        Line::Hear(1, 9, 8),
        Line::Hear(2, 9, 0),
        Line::Pass(1),
        Line::Hear(1, 11, 0),
        Line::Keeps(6, 7),
    ];
    assert_eq!(rt; first_wrong(&mut edge, &lines), None);
    Ok(())
}

// A station that the edge has advertised before makes no register.
#[test]
fn station_that_comes_back_is_not_new(rt: HostRuntime) -> Result<(), Fail> {
    let mut edge = limited(rt.alloc(), None, Some(1))?;
    let lines = [
        Line::Hear(1, HOST, 0),
        Line::Hear(1, OTHER, 8),
        Line::Told(Event::PortDown(1), 0),
        Line::Says(HOST, 3, Content::Withdrawn),
        Line::Told(Event::PortUp(1), 0),
        Line::Hear(1, HOST, 0),
        Line::Says(HOST, 4, advert(false, 0)),
        Line::Hear(1, OTHER, 8),
    ];
    assert_eq!(rt; first_wrong(&mut edge, &lines), None);
    Ok(())
}

// A station that moves here is new, too, and its move isn't counted.
#[test]
fn station_that_moves_here_needs_a_place(rt: HostRuntime) -> Result<(), Fail> {
    let mut edge = limited(rt.alloc(), None, Some(1))?;
    let lines = [
        Line::Hear(1, OTHER, 0),
        Line::Taken(said(1, 0, 1, advert(false, 4)), Taken::Newer),
        Line::Hear(1, HOST, 8),
        Line::Silent(HOST),
        Line::Pass(60),
        Line::Hear(1, HOST, 0),
        Line::Says(HOST, 3, advert(false, 5)),
    ];
    assert_eq!(rt; first_wrong(&mut edge, &lines), None);
    Ok(())
}

/// How many of a hundred made-up addresses of this second are not learnt.
fn unlearnt(edge: &mut Edge, second: u64) -> u64
    requires { second < 600 }
{
    let mut refused = 0u64;
    for n in 0..100u64 {
        let source = 0x0200_0000_0000 + second * 1000 + n;
        if import(edge, 1, source) > 6 {
            refused = refused.wrapping_add(1);
        }
    }
    refused
}

// Of a hundred addresses a second the edge learns eight in five minutes.
#[test]
fn made_up_addresses_make_few_registers(rt: HostRuntime) -> Result<(), Fail> {
    let mut edge = limited(rt.alloc(), Some(8), Some(10))?;
    let mut refused = 0u64;
    for second in 0..600u64 {
        refused = refused.wrapping_add(unlearnt(&mut edge, second));
        let _ = step(&mut edge, &Event::Second);
    }
    assert_eq!(rt; edge.entries(), 0);
    assert_eq!(rt; edge.counter(), 33);
    assert_eq!(rt; refused, 59_984);
    Ok(())
}
