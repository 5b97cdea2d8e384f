//! Stations that are learnt, heard again, moved, and forgotten.

use super::lines::{Line, first_wrong};
use super::{BROADCAST, HOST, OTHER, advert, flood, frame, open, said, station};
use crate::{Edge, Event};
use route_join::Taken;
use route_wire::Content;
use std::test::Fail;

#[test]
fn spent_sequence_number_is_told_and_the_frame_forwarded(rt: HostRuntime) -> Result<(), Fail> {
    let mut edge = open(rt.alloc(), 0, 16, 300)?;
    let octets = frame(BROADCAST, HOST);
    let lines = [
        Line::Taken(flood(1), Taken::Newer),
        Line::Taken(said(1, 0, 2, advert(false, 4_294_967_295)), Taken::Newer),
        Line::Hear(1, HOST, 2),
        Line::Keeps(0, 1),
        Line::Sent(Event::Frame(1, &octets), Some((0b10, 1))),
    ];
    assert_eq!(rt; first_wrong(&mut edge, &lines), None);
    Ok(())
}

// Learnt at second 4 and moved at second 6, it goes with port 2 and not with port
// 1, and at second 16.
#[test]
fn station_moves_between_ports_without_an_update(rt: HostRuntime) -> Result<(), Fail> {
    let mut edge = open(rt.alloc(), 0, 16, 10)?;
    let lines = [
        Line::Pass(4),
        Line::Hear(1, HOST, 0),
        Line::Says(HOST, 2, advert(false, 0)),
        Line::Pass(2),
        Line::Hear(2, HOST, 0),
        Line::Keeps(1, 2),
        Line::Route(1, HOST, 0b10, 0),
        Line::Told(Event::PortDown(1), 0),
        Line::Keeps(1, 2),
        Line::Pass(9),
        Line::Keeps(1, 2),
        Line::Pass(1),
        Line::Keeps(0, 3),
        Line::Says(HOST, 3, Content::Withdrawn),
    ];
    assert_eq!(rt; first_wrong(&mut edge, &lines), None);
    Ok(())
}

#[test]
fn full_table_is_told_and_the_frame_forwarded(rt: HostRuntime) -> Result<(), Fail> {
    let mut edge = open(rt.alloc(), 0, 1, 300)?;
    let octets = frame(BROADCAST, OTHER);
    let lines = [
        Line::Hear(1, HOST, 0),
        Line::Hear(1, OTHER, 6),
        Line::Sent(Event::Frame(1, &octets), Some((0b10, 0))),
        Line::Keeps(1, 2),
        Line::Route(2, HOST, 0b1, 0),
        Line::Silent(OTHER),
    ];
    assert_eq!(rt; first_wrong(&mut edge, &lines), None);
    Ok(())
}

// 10.0.0.1 takes the host from the edge by its nth number, and it is heard here
// again with this alert.
fn moves(edge: &mut Edge, n: u8, alert: u8) -> bool {
    let update = said(1, 0, u64::from(n) + 1, advert(false, 2 * u32::from(n)));
    let lines = [
        Line::Taken(update, Taken::Newer),
        Line::Keeps(0, 2 * u64::from(n) + 1),
        Line::Hear(1, HOST, alert),
    ];
    first_wrong(edge, &lines).is_none()
}

// Four moves, ten seconds apart: the edge learns the host each time, with the next sequence number.
fn moves_four_times(edge: &mut Edge) -> bool {
    for n in 0..4u8 {
        let content = advert(false, 2 * u32::from(n) + 1);
        let lines = [
            Line::Says(HOST, 2 * u64::from(n) + 2, content),
            Line::Pass(10),
        ];
        if !moves(edge, n, 0) || first_wrong(edge, &lines).is_some() {
            return false;
        }
    }
    true
}

// A frozen station gives no alert, and is sent where its owner is.
#[test]
fn five_moves_within_180_seconds_freeze_a_station(rt: HostRuntime) -> Result<(), Fail> {
    let mut edge = open(rt.alloc(), 0, 16, 300)?;
    assert!(rt; moves_four_times(&mut edge) && moves(&mut edge, 4, 3));
    let lines = [
        Line::Keeps(0, 9),
        Line::Says(HOST, 9, Content::Withdrawn),
        Line::Hear(1, HOST, 0),
        Line::Keeps(0, 9),
        Line::Route(1, HOST, 0, 1),
        Line::Told(Event::Thaw(station(HOST)), 0),
        Line::Hear(1, HOST, 0),
        Line::Says(HOST, 10, advert(false, 9)),
    ];
    assert_eq!(rt; first_wrong(&mut edge, &lines), None);
    Ok(())
}

#[test]
fn fifth_move_at_second_180_begins_a_window(rt: HostRuntime) -> Result<(), Fail> {
    let mut edge = open(rt.alloc(), 0, 16, 300)?;
    assert!(rt; moves_four_times(&mut edge));
    assert_eq!(rt; first_wrong(&mut edge, &[Line::Pass(140)]), None);
    assert!(rt; moves(&mut edge, 4, 0));
    let lines = [Line::Says(HOST, 10, advert(false, 9))];
    assert_eq!(rt; first_wrong(&mut edge, &lines), None);
    Ok(())
}

// Heard at seconds 0 and 5, the host goes at second 15; the other, heard at second 0, at second 10.
#[test]
fn stations_go_when_they_are_old(rt: HostRuntime) -> Result<(), Fail> {
    let mut edge = open(rt.alloc(), 0, 16, 10)?;
    let lines = [
        Line::Hear(1, HOST, 0),
        Line::Hear(1, OTHER, 0),
        Line::Says(OTHER, 3, advert(false, 0)),
        Line::Pass(5),
        Line::Hear(1, HOST, 0),
        Line::Pass(4),
        Line::Keeps(2, 3),
        Line::Pass(1),
        Line::Says(OTHER, 4, Content::Withdrawn),
        Line::Keeps(1, 4),
        Line::Pass(4),
        Line::Keeps(1, 4),
        Line::Pass(1),
        Line::Says(HOST, 5, Content::Withdrawn),
        Line::Keeps(0, 5),
    ];
    assert_eq!(rt; first_wrong(&mut edge, &lines), None);
    Ok(())
}

#[test]
fn port_that_goes_down_withdraws_in_that_step(rt: HostRuntime) -> Result<(), Fail> {
    let mut edge = open(rt.alloc(), 0, 16, 300)?;
    let lines = [
        Line::Hear(1, HOST, 0),
        Line::Says(HOST, 2, advert(false, 0)),
        Line::Told(Event::PortDown(1), 0),
        Line::Says(HOST, 3, Content::Withdrawn),
        Line::Keeps(0, 3),
        Line::Told(Event::PortUp(1), 0),
        Line::Hear(1, HOST, 0),
        Line::Says(HOST, 4, advert(false, 0)),
    ];
    assert_eq!(rt; first_wrong(&mut edge, &lines), None);
    Ok(())
}
