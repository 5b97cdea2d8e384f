//! The storm limit of a port: beyond this number of group and unknown frames in a second, further
//! ones are dropped, and nothing is learnt from them.

use super::lines::{Line, first_wrong};
use super::{
    BROADCAST, HOST, OTHER, addr, advert, frame, import, open_limited, refusal_of, said, seconds,
    sent, step, told,
};
use crate::{Edge, EdgeRefusal, Event, Limits, Refusal};
use route_join::Taken;
use std::alloc::{AllocError, Global};
use std::test::Fail;

/// The station 02:00:00:00:00:0c.
const THIRD: u64 = 0x0200_0000_000c;

/// The station 02:00:00:00:00:0d. No port has learnt it.
const UNKNOWN: u64 = 0x0200_0000_000d;

/// The refusal of a frame beyond the limit of port 1.
const STORM: Refusal = Refusal::Edge(EdgeRefusal::PortStorm(1));

/// An edge whose ports 1 and 2 are up. Port 1 has this storm limit, and the other ports have none.
fn limited(alloc: Global, storm: Option<u64>) -> Result<Edge, AllocError> {
    let limits = Limits {
        stations: None,
        new_stations: None,
        storm,
    };
    open_limited(alloc, limits)
}

/// The local ports that a frame at the port goes to, and the number of edges.
fn goes(edge: &mut Edge, port: u8, destination: u64, source: u64) -> Option<(u64, usize)> {
    sent(step(edge, &Event::Frame(port, &frame(destination, source))))
}

/// Whether a frame at port 1 is beyond the limit.
fn is_dropped(edge: &mut Edge, destination: u64, source: u64) -> bool {
    let outcome = step(edge, &Event::Frame(1, &frame(destination, source)));
    refusal_of(outcome) == Some(STORM)
}

// Two broadcasts a second. The third one is dropped, and its source is not learnt.
#[test]
fn broadcasts_beyond_the_limit_are_dropped(rt: HostRuntime) -> Result<(), Fail> {
    let mut edge = limited(rt.alloc(), Some(2))?;
    let twice = [Line::Hear(1, HOST, 0), Line::Hear(1, HOST, 0)];
    assert_eq!(rt; first_wrong(&mut edge, &twice), None);
    assert!(rt; is_dropped(&mut edge, BROADCAST, OTHER));
    let lines = [Line::Silent(OTHER), Line::Keeps(1, 2)];
    assert_eq!(rt; first_wrong(&mut edge, &lines), None);
    assert_eq!(rt; goes(&mut edge, 2, BROADCAST, OTHER), Some((0b1, 0)));
    seconds(&mut edge, 1);
    assert_eq!(rt; goes(&mut edge, 1, BROADCAST, OTHER), Some((0b10, 0)));
    assert_eq!(rt; import(&mut edge, 1, HOST), 0);
    assert!(rt; is_dropped(&mut edge, BROADCAST, OTHER));
    seconds(&mut edge, 5);
    assert_eq!(rt; first_wrong(&mut edge, &twice), None);
    assert!(rt; is_dropped(&mut edge, BROADCAST, OTHER));
    Ok(())
}

// A frame for an unknown station counts, and one for a known station doesn't, whether a port has
// learnt the station or another edge owns it, also if that edge is away.
#[test]
fn frames_for_known_stations_do_not_count(rt: HostRuntime) -> Result<(), Fail> {
    let mut edge = limited(rt.alloc(), Some(1))?;
    let lines = [
        Line::Hear(2, OTHER, 0),
        Line::Taken(said(1, 0, 1, advert(false, 0)), Taken::Newer),
    ];
    assert_eq!(rt; first_wrong(&mut edge, &lines), None);
    assert_eq!(rt; goes(&mut edge, 1, UNKNOWN, THIRD), Some((0b10, 0)));
    assert!(rt; is_dropped(&mut edge, UNKNOWN, THIRD));
    assert_eq!(rt; goes(&mut edge, 1, OTHER, THIRD), Some((0b10, 0)));
    assert_eq!(rt; goes(&mut edge, 1, HOST, THIRD), Some((0, 1)));
    assert!(rt; is_dropped(&mut edge, UNKNOWN, THIRD));
    assert_eq!(rt; told(&mut edge, &Event::Away(addr(1))), 0);
    assert_eq!(rt; goes(&mut edge, 1, HOST, THIRD), Some((0b10, 0)));
    Ok(())
}

/// How many of 500 broadcasts at port 2 are refused if port 1 has this storm limit.
fn refused(alloc: Global, storm: Option<u64>) -> Result<u64, AllocError> {
    let octets = frame(BROADCAST, HOST);
    let mut edge = limited(alloc, storm)?;
    let mut refused = 0u64;
    for _turn in 0..500u64 {
        if step(&mut edge, &Event::Frame(2, &octets)).is_err() {
            refused = refused.wrapping_add(1);
        }
    }
    Ok(refused)
}

// Without a limit nothing is dropped, and a limit of one port is none of another.
#[test]
fn ports_without_a_limit_drop_nothing(rt: HostRuntime) -> Result<(), Fail> {
    assert_eq!(rt; refused(rt.alloc(), None)?, 0);
    assert_eq!(rt; refused(rt.alloc(), Some(1))?, 0);
    let mut edge = limited(rt.alloc(), None)?;
    let lines = [Line::Hear(1, HOST, 0), Line::Hear(1, OTHER, 0)];
    assert_eq!(rt; first_wrong(&mut edge, &lines), None);
    Ok(())
}

// A hundred broadcasts in each of ten seconds: the edge takes on seven in each.
#[test]
fn each_second_has_its_own_count(rt: HostRuntime) -> Result<(), Fail> {
    let mut edge = limited(rt.alloc(), Some(7))?;
    let octets = frame(BROADCAST, HOST);
    let mut taken = 0u64;
    for _second in 0..10u64 {
        for _turn in 0..100u64 {
            if step(&mut edge, &Event::Frame(1, &octets)).is_ok() {
                taken = taken.wrapping_add(1);
            }
        }
        let _ = step(&mut edge, &Event::Second);
    }
    assert_eq!(rt; taken, 70);
    Ok(())
}
