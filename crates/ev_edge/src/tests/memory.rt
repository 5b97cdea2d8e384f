//! Events that are refused memory: these tests also pass with each allocation refused in turn. An
//! event that is refused memory leaves the old state, and succeeds when it is entered again.

use super::frames::DATAGRAM;
use super::lines::{Line, first_wrong};
use super::{
    BROADCAST, HOST, NOBODY, OTHER, addr, advert, flood, frame, made, refusal_of, said, says, sent,
    station, step, told,
};
use crate::{Edge, EdgeRefusal, Event, Refusal};
use ether_wire::{Out, Page};
use route_join::Taken;
use route_wire::{Content, Update};
use std::test::Fail;

/// The number of the alert for refused memory.
const NO_MEMORY: u8 = 15;

// What can be seen of an edge.
#[derive(Drop)]
struct Seen {
    report: Page<1024>,
    entries: usize,
    counter: u64,
}

fn look_at(edge: &Edge) -> Seen {
    let mut report = Page::new();
    if report.failures() == 0 {
        let _ = edge.table().write_report(&mut report);
    }
    Seen {
        report,
        entries: edge.entries(),
        counter: edge.counter(),
    }
}

// Whether an edge looks as it did before.
fn is_as(edge: &Edge, before: &Seen) -> bool {
    let now = look_at(edge);
    now.report.octets() == before.report.octets()
        && now.entries == before.entries
        && now.counter == before.counter
}

// The answer to an event, or to its second try if the first one was refused memory and changed
// nothing.
fn alert_at_last(edge: &mut Edge, event: &Event<'_>) -> Option<u8> {
    let before = look_at(edge);
    let alert = told(edge, event);
    if alert != NO_MEMORY {
        return Some(alert);
    }
    if !is_as(edge, &before) {
        return None;
    }
    Some(told(edge, event))
}

// The table's answer to an update, in the same way.
fn taken_at_last(edge: &mut Edge, update: Update) -> Option<Taken> {
    let before = look_at(edge);
    let outcome = step(edge, &Event::Take(update));
    if let Ok(reply) = outcome {
        return reply.taken;
    }
    let is_refused = refusal_of(outcome) == Some(Refusal::Edge(EdgeRefusal::NoMemory));
    if !is_refused || !is_as(edge, &before) {
        return None;
    }
    match step(edge, &Event::Take(update)) {
        Ok(reply) => reply.taken,
        Err(_) => None,
    }
}

// Whether an event is answered with this alert at last, and the edge says this of the station then.
fn says_at_last(edge: &mut Edge, event: &Event<'_>, mac: u64, said: (u64, Content)) -> bool {
    alert_at_last(edge, event) == Some(0) && says(edge, mac) == Some(said)
}

#[test]
fn refused_learning_is_made_up_for(rt: HostRuntime) -> Result<(), Fail> {
    let mut edge = made(rt.alloc(), 0).ok_or("no edge")?;
    for n in 0..8u64 {
        let octets = frame(BROADCAST, HOST + n);
        let said = (n + 2, advert(false, 0));
        assert!(rt; says_at_last(&mut edge, &Event::Frame(1, &octets), HOST + n, said));
    }
    Ok(())
}

// A frame is sent where it belongs though its source can't be learnt.
#[test]
fn frame_is_sent_though_memory_is_refused(rt: HostRuntime) -> Result<(), Fail> {
    let mut edge = made(rt.alloc(), 0).ok_or("no edge")?;
    for n in 0..8u64 {
        let octets = frame(BROADCAST, HOST + n);
        let first = step(&mut edge, &Event::Frame(1, &octets));
        assert_eq!(rt; sent(first), Some((0b10, 0)));
    }
    Ok(())
}

// Whether 10.0.0.1 takes the host from the edge by its nth number, and it is heard here again with
// this alert.
fn moves_at_last(edge: &mut Edge, n: u8, alert: u8) -> bool {
    let octets = frame(BROADCAST, HOST);
    let update = said(1, 0, u64::from(n) + 1, advert(false, 2 * u32::from(n)));
    taken_at_last(edge, update) == Some(Taken::Newer)
        && alert_at_last(edge, &Event::Frame(1, &octets)) == Some(alert)
}

// No move is counted where memory is refused: the fifth one freezes.
#[test]
fn refused_move_is_not_counted(rt: HostRuntime) -> Result<(), Fail> {
    let mut edge = made(rt.alloc(), 0).ok_or("no edge")?;
    for n in 0..4u8 {
        assert!(rt; moves_at_last(&mut edge, n, 0));
    }
    assert!(rt; moves_at_last(&mut edge, 4, 3));
    Ok(())
}

#[test]
fn refused_pin_is_made_up_for(rt: HostRuntime) -> Result<(), Fail> {
    let mut edge = made(rt.alloc(), 0).ok_or("no edge")?;
    for n in 0..8u64 {
        let pin = Event::Pin(station(HOST + n), 1);
        assert!(rt; says_at_last(&mut edge, &pin, HOST + n, (n + 2, advert(true, 0))));
    }
    Ok(())
}

// Updates of another edge, and of the edge itself in an earlier incarnation.
#[test]
fn refused_update_is_made_up_for(rt: HostRuntime) -> Result<(), Fail> {
    let mut edge = made(rt.alloc(), 1).ok_or("no edge")?;
    for n in [1u8, 3, 4] {
        assert_eq!(rt; taken_at_last(&mut edge, flood(n)), Some(Taken::Newer));
        let update = said(n, 0, 1, advert(false, 0));
        assert_eq!(rt; taken_at_last(&mut edge, update), Some(Taken::Newer));
    }
    let returning = said(2, 0, 9, advert(false, 5));
    assert_eq!(rt; taken_at_last(&mut edge, returning), Some(Taken::Newer));
    assert_eq!(rt; says(&edge, HOST), Some((2, Content::Withdrawn)));
    Ok(())
}

// A notification of a topology change.
const NOTIFICATION: [u8; 21] = [
    0x01, 0x80, 0xc2, 0x00, 0x00, 0x00, 0x02, 0xaa, 0x00, 0x00, 0x00, 0x01, 0x00, 0x07, 0x42, 0x42,
    0x03, 0x00, 0x00, 0x00, 0x80,
];

// Whether 10.0.0.1 has the host, the edge the other station on port 1, and the
// pinned one on port 2.
fn is_filled(edge: &mut Edge, pinned: u64) -> bool {
    let octets = frame(BROADCAST, OTHER);
    taken_at_last(edge, said(1, 0, 1, advert(false, 0))) == Some(Taken::Newer)
        && alert_at_last(edge, &Event::Frame(1, &octets)) == Some(0)
        && alert_at_last(edge, &Event::Pin(station(pinned), 2)) == Some(0)
}

// How many announcements there are until none is left, four at the most.
fn announcements(edge: &mut Edge) -> u8 {
    let mut count = 0;
    for _ in 0..4u8 {
        if let Ok(reply) = step(edge, &Event::Announce) {
            if reply.announced.is_some() && count < 4 {
                count += 1;
            }
        }
    }
    count
}

// After an edge has learnt, none of these events takes memory, so none can be refused.
#[test]
fn events_that_take_no_memory_succeed(rt: HostRuntime) -> Result<(), Fail> {
    let pinned = 0x0200_0000_000c;
    let mut edge = made(rt.alloc(), 0).ok_or("no edge")?;
    assert!(rt; is_filled(&mut edge, pinned));
    let group = frame(OTHER, NOBODY);
    let lines = [
        Line::Told(Event::Second, 0),
        Line::Told(Event::Frame(2, &NOTIFICATION), 0),
        Line::Told(Event::Frame(1, &group), 0),
        Line::Sent(Event::TunnelFrame(addr(1), &DATAGRAM), Some((0b11, 0))),
        Line::Told(Event::Mcheck(2), 0),
        Line::Told(Event::Thaw(station(OTHER)), 0),
        Line::Taken(said(1, 0, 2, advert(false, 3)), Taken::Newer),
        Line::Told(Event::PortDown(1), 0),
        Line::Says(OTHER, 4, Content::Withdrawn),
        Line::Told(Event::PortUp(1), 0),
        Line::Told(Event::Unpin(station(pinned)), 0),
        Line::Says(pinned, 5, Content::Withdrawn),
    ];
    assert_eq!(rt; first_wrong(&mut edge, &lines), None);
    assert_eq!(rt; announcements(&mut edge), 3);
    Ok(())
}
