//! Other edges that go away and come back. Expected values are by docs/crates/ev_edge.md.

use super::lines::{Line, first_wrong};
use super::{BROADCAST, HOST, addr, advert, flood, open, said, step};
use crate::{Edge, EdgeRefusal, Event, Refusal};
use route_join::Taken;
use std::test::Fail;

#[test]
fn flood_leaves_out_edges_that_are_away(rt: HostRuntime) -> Result<(), Fail> {
    let mut edge = open(rt.alloc(), 0, 16, 300)?;
    let lines = [
        Line::Taken(flood(1), Taken::Newer),
        Line::Taken(flood(3), Taken::Newer),
        Line::Taken(flood(4), Taken::Newer),
        Line::Route(1, BROADCAST, 0b10, 3),
        Line::Told(Event::Away(addr(3)), 0),
        Line::Route(1, BROADCAST, 0b10, 2),
        Line::Told(Event::Away(addr(1)), 0),
        Line::Route(1, BROADCAST, 0b10, 1),
        Line::Told(Event::Back(addr(3)), 0),
        Line::Route(1, BROADCAST, 0b10, 2),
        Line::Told(Event::Back(addr(1)), 0),
        Line::Route(1, BROADCAST, 0b10, 3),
    ];
    assert_eq!(rt; first_wrong(&mut edge, &lines), None);
    Ok(())
}

#[test]
fn station_of_an_edge_that_is_away_is_flooded(rt: HostRuntime) -> Result<(), Fail> {
    let mut edge = open(rt.alloc(), 0, 16, 300)?;
    let lines = [
        Line::Taken(flood(1), Taken::Newer),
        Line::Taken(flood(3), Taken::Newer),
        Line::Taken(flood(4), Taken::Newer),
        Line::Taken(said(3, 0, 1, advert(false, 0)), Taken::Newer),
        Line::Route(1, HOST, 0, 1),
        Line::Told(Event::Away(addr(3)), 0),
        Line::Route(1, HOST, 0b10, 2),
        Line::Taken(said(3, 0, 2, advert(false, 1)), Taken::Newer),
        Line::Route(1, HOST, 0b10, 2),
        Line::Told(Event::Back(addr(3)), 0),
        Line::Route(1, HOST, 0, 1),
    ];
    assert_eq!(rt; first_wrong(&mut edge, &lines), None);
    Ok(())
}

#[test]
fn edges_that_are_not_listed_are_refused(rt: HostRuntime) -> Result<(), Fail> {
    let mut edge = open(rt.alloc(), 0, 16, 300)?;
    let stranger = Refusal::Edge(EdgeRefusal::UnknownOriginator);
    let lines = [
        Line::Refused(Event::Away(addr(9)), stranger),
        Line::Refused(Event::Back(addr(9)), stranger),
    ];
    assert_eq!(rt; first_wrong(&mut edge, &lines), None);
    assert!(rt; edge.away().is_empty());
    Ok(())
}

// Performs the event, and returns `true` if exactly these edges are away then, in this order.
fn leaves(edge: &mut Edge, event: &Event<'_>, first: u8, last: u8) -> bool {
    let _ = step(edge, event);
    let away = edge.away();
    away.len() == 2 && away[0] == addr(first) && away[1] == addr(last)
}

#[test]
fn edges_that_are_away_stand_in_the_order_of_the_list(rt: HostRuntime) -> Result<(), Fail> {
    let mut edge = open(rt.alloc(), 0, 16, 300)?;
    let _ = step(&mut edge, &Event::Away(addr(4)));
    assert!(rt; leaves(&mut edge, &Event::Away(addr(1)), 1, 4));
    assert!(rt; leaves(&mut edge, &Event::Away(addr(4)), 1, 4));
    assert!(rt; leaves(&mut edge, &Event::Back(addr(3)), 1, 4));
    let _ = step(&mut edge, &Event::Away(addr(3)));
    assert!(rt; leaves(&mut edge, &Event::Back(addr(1)), 3, 4));
    assert!(rt; leaves(&mut edge, &Event::Second, 3, 4));
    Ok(())
}
