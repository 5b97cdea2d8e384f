//! Stations that are pinned by hand.

use super::lines::{Line, first_wrong};
use super::{BROADCAST, HOST, advert, elsewhere, open, said, station};
use crate::{EdgeRefusal, Event, Refusal};
use route_wire::Content;
use std::test::Fail;

#[test]
fn pinned_station_is_lost_to_a_static_one(rt: HostRuntime) -> Result<(), Fail> {
    let mut edge = open(rt.alloc(), 0, 16, 10)?;
    let lines = [
        Line::Hear(1, HOST, 0),
        Line::Keeps(1, 2),
        Line::Told(Event::Pin(station(HOST), 2), 0),
        Line::Says(HOST, 3, advert(true, 0)),
        Line::Pass(20),
        Line::Route(1, HOST, 0b10, 0),
        Line::Says(HOST, 3, advert(true, 0)),
        Line::Told(Event::Take(said(1, 0, 1, advert(true, 0))), 4),
        Line::Says(HOST, 4, Content::Withdrawn),
        Line::Keeps(0, 4),
        Line::Told(Event::Pin(station(HOST), 2), 1),
        Line::Keeps(0, 4),
    ];
    assert_eq!(rt; first_wrong(&mut edge, &lines), None);
    Ok(())
}

#[test]
fn pinned_station_goes_to_another_port_without_an_update(rt: HostRuntime) -> Result<(), Fail> {
    let mut edge = open(rt.alloc(), 0, 16, 10)?;
    let lines = [
        Line::Told(Event::Pin(station(HOST), 1), 0),
        Line::Hear(2, HOST, 0),
        Line::Route(2, HOST, 0b1, 0),
        Line::Told(Event::Pin(station(HOST), 2), 0),
        Line::Route(1, HOST, 0b10, 0),
        Line::Keeps(1, 2),
        Line::Told(Event::Unpin(station(HOST)), 0),
        Line::Says(HOST, 3, Content::Withdrawn),
        Line::Told(Event::Unpin(station(HOST)), 0),
        Line::Keeps(0, 3),
    ];
    assert_eq!(rt; first_wrong(&mut edge, &lines), None);
    Ok(())
}

#[test]
fn pins_are_refused_in_order(rt: HostRuntime) -> Result<(), Fail> {
    let mut edge = open(rt.alloc(), 0, 16, 10)?;
    let no_port = Refusal::Edge(EdgeRefusal::NoSuchPort);
    let no_network = Refusal::Edge(EdgeRefusal::NoSuchVni);
    let lines = [
        Line::Refused(Event::Pin(elsewhere(BROADCAST), 0), no_port),
        Line::Refused(Event::Pin(elsewhere(BROADCAST), 4), no_port),
        Line::Refused(Event::Pin(elsewhere(BROADCAST), 3), no_network),
        Line::Refused(
            Event::Pin(station(BROADCAST), 3),
            Refusal::Edge(EdgeRefusal::BadMac),
        ),
        Line::Keeps(0, 1),
    ];
    assert_eq!(rt; first_wrong(&mut edge, &lines), None);
    Ok(())
}
