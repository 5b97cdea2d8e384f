//! Sessions with edges elsewhere, and when one of these edges is away.
use crate::{Sessions, Turn};
use ether_wire::Addr;

/// The address 10.0.0.LAST.
fn address(last: u32) -> Addr {
    Addr::new(0x0a00_0000 + last % 256)
}

/// Returns the step with which this edge is away.
fn away(last: u32) -> Option<Turn> {
    Some(Turn {
        edge: address(last),
        is_away: true,
    })
}

/// Returns the step with which this edge is back.
fn back(last: u32) -> Option<Turn> {
    Some(Turn {
        edge: address(last),
        is_away: false,
    })
}

/// Returns the step that is due, and notes that it was taken.
fn taken(sessions: &mut Sessions, now: u64, hold: u64) -> Option<Turn> {
    let turn = sessions.due(now, hold)?;
    sessions.note(&turn);
    Some(turn)
}

#[test]
fn an_edge_is_away_after_its_time_and_back_with_its_session(rt: HostRuntime) {
    let mut sessions = Sessions::new();
    sessions.begin(address(1));
    assert!(rt; sessions.due(1_000, 90).is_none());
    sessions.end(address(1), 1_000);
    assert!(rt; sessions.due(1_089, 90).is_none());
    assert_eq!(rt; taken(&mut sessions, 1_090, 90), away(1));
    assert!(rt; sessions.due(5_000, 90).is_none());
    sessions.begin(address(1));
    assert_eq!(rt; taken(&mut sessions, 5_000, 90), back(1));
    assert!(rt; sessions.due(5_000, 90).is_none());
}

#[test]
fn an_edge_that_returns_in_time_is_never_away(rt: HostRuntime) {
    let mut sessions = Sessions::new();
    sessions.begin(address(1));
    sessions.end(address(1), 10);
    sessions.begin(address(1));
    assert!(rt; sessions.due(1_000, 90).is_none());
    sessions.end(address(1), 1_000);
    assert!(rt; sessions.due(1_089, 90).is_none());
}

#[test]
fn the_last_of_two_connections_counts(rt: HostRuntime) {
    let mut sessions = Sessions::new();
    sessions.begin(address(1));
    sessions.begin(address(1));
    sessions.end(address(1), 10);
    assert!(rt; sessions.due(1_000, 90).is_none());
    sessions.end(address(1), 1_000);
    assert!(rt; sessions.due(1_089, 90).is_none());
    assert_eq!(rt; taken(&mut sessions, 1_090, 90), away(1));
}

#[test]
fn only_the_edge_without_a_session_is_away(rt: HostRuntime) {
    let mut sessions = Sessions::new();
    sessions.begin(address(1));
    sessions.begin(address(2));
    sessions.begin(address(3));
    sessions.end(address(2), 10);
    assert_eq!(rt; taken(&mut sessions, 100, 90), away(2));
    assert!(rt; sessions.due(100, 90).is_none());
    sessions.end(address(1), 100);
    sessions.end(address(3), 100);
    assert_eq!(rt; taken(&mut sessions, 190, 90), away(1));
    assert_eq!(rt; taken(&mut sessions, 190, 90), away(3));
    assert!(rt; sessions.due(190, 90).is_none());
}

#[test]
fn with_a_time_of_0_no_edge_is_away(rt: HostRuntime) {
    let mut sessions = Sessions::new();
    sessions.begin(address(1));
    sessions.end(address(1), 10);
    assert!(rt; sessions.due(1_000_000, 0).is_none());
}

#[test]
fn no_more_than_64_edges_have_a_place(rt: HostRuntime) {
    let mut sessions = Sessions::new();
    for last in 0..65 {
        sessions.begin(address(last));
    }
    for last in 0..65 {
        sessions.end(address(last), 10);
    }
    for last in 0..64 {
        assert_eq!(rt; taken(&mut sessions, 100, 90), away(last));
    }
    assert!(rt; sessions.due(100, 90).is_none());
}
