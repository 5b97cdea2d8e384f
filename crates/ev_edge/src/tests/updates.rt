//! Updates of other edges, and of the edge itself in an earlier incarnation.

use super::lines::{Line, first_wrong};
use super::{BROADCAST, HOST, advert, flood, open, said};
use crate::{EdgeRefusal, Event, Refusal};
use route_join::Taken;
use route_wire::Content;
use std::test::Fail;

#[test]
fn own_name_is_not_taken_ahead(rt: HostRuntime) -> Result<(), Fail> {
    let mut edge = open(rt.alloc(), 0, 16, 300)?;
    let ahead = Refusal::Edge(EdgeRefusal::OwnNameAhead);
    let first = said(2, 0, 1, advert(false, 0));
    let lines = [
        Line::Refused(Event::Take(first), ahead),
        Line::Silent(HOST),
        Line::Keeps(0, 1),
        Line::Hear(1, HOST, 0),
        Line::Refused(Event::Take(said(2, 0, 3, advert(false, 0))), ahead),
        Line::Taken(first, Taken::Known),
        Line::Says(HOST, 2, advert(false, 0)),
    ];
    assert_eq!(rt; first_wrong(&mut edge, &lines), None);
    Ok(())
}

// At equal sequence numbers the lower address has the station.
#[test]
fn beaten_edge_withdraws_in_that_step(rt: HostRuntime) -> Result<(), Fail> {
    let mut edge = open(rt.alloc(), 0, 16, 300)?;
    let lines = [
        Line::Hear(1, HOST, 0),
        Line::Taken(said(3, 0, 1, advert(false, 0)), Taken::Newer),
        Line::Says(HOST, 2, advert(false, 0)),
        Line::Told(Event::Take(said(1, 0, 1, advert(false, 0))), 0),
        Line::Says(HOST, 3, Content::Withdrawn),
        Line::Keeps(0, 3),
        Line::Route(1, HOST, 0, 1),
    ];
    assert_eq!(rt; first_wrong(&mut edge, &lines), None);
    Ok(())
}

#[test]
fn frames_go_to_edges_that_want_what_is_flooded(rt: HostRuntime) -> Result<(), Fail> {
    let mut edge = open(rt.alloc(), 0, 16, 300)?;
    let stranger = Refusal::Edge(EdgeRefusal::UnknownOriginator);
    let lines = [
        Line::Taken(flood(3), Taken::Newer),
        Line::Taken(flood(1), Taken::Newer),
        Line::Route(1, BROADCAST, 0b10, 2),
        Line::Refused(Event::Take(flood(9)), stranger),
    ];
    assert_eq!(rt; first_wrong(&mut edge, &lines), None);
    Ok(())
}

#[test]
fn own_advert_of_an_earlier_life_is_withdrawn(rt: HostRuntime) -> Result<(), Fail> {
    let mut edge = open(rt.alloc(), 1, 16, 300)?;
    let lines = [
        Line::Taken(said(2, 0, 9, advert(false, 5)), Taken::Newer),
        Line::Says(HOST, 2, Content::Withdrawn),
        Line::Taken(said(2, 0, 10, advert(false, 5)), Taken::Known),
        Line::Keeps(0, 2),
    ];
    assert_eq!(rt; first_wrong(&mut edge, &lines), None);
    Ok(())
}
