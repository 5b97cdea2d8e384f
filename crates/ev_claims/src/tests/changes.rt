//! The edge's own updates, and their order.

use super::steps::{Step, goes};
use super::{A, B, C, D, Name, STATIC, dynamic, learnt, own};
use route_wire::Content;

#[test]
fn opening_says_the_lowest_network_first(rt: HostRuntime) {
    let steps = [
        Step::Counter(2),
        Step::Entries(0),
        Step::AnnounceFlood(1, 1),
        Step::AnnounceFlood(2, 2),
        Step::AnnounceNothing,
        Step::Members(1, 0b101),
        Step::Members(2, 0b10),
    ];
    assert!(rt; goes(rt.alloc(), 0, true, &[], &steps));
}

#[test]
fn advertised_station_is_learnt_and_said(rt: HostRuntime) {
    let steps = [
        Step::Knows(A, 3, 7, false),
        Step::Says(own(A, 2, dynamic(4))),
        Step::Numbered(own(A, 2, dynamic(4))),
        Step::NotNumbered(3),
        Step::AnnounceFlood(1, 1),
        Step::Announce(own(A, 2, dynamic(4))),
        Step::AnnounceNothing,
    ];
    assert!(rt; goes(rt.alloc(), 0, false, &[learnt(A, 3, 7, 4)], &steps));
}

#[test]
fn pinned_station_is_said_as_static(rt: HostRuntime) {
    let steps = [
        Step::Pin(A, 3),
        Step::Pin(B, 1),
        Step::Knows(A, 3, 0, true),
        Step::Knows(B, 1, 0, true),
        Step::Says(own(A, 3, STATIC)),
        Step::Says(own(B, 4, STATIC)),
        Step::Entries(2),
    ];
    assert!(rt; goes(rt.alloc(), 0, false, &[learnt(A, 1, 7, 4)], &steps));
}

#[test]
fn register_that_waits_keeps_its_place(rt: HostRuntime) {
    let lessons = [learnt(A, 1, 0, 0), learnt(B, 1, 0, 0)];
    let steps = [
        Step::Pin(A, 1),
        Step::AnnounceFlood(1, 1),
        Step::Announce(own(A, 4, STATIC)),
        Step::Announce(own(B, 3, dynamic(0))),
        Step::AnnounceNothing,
    ];
    assert!(rt; goes(rt.alloc(), 0, false, &lessons, &steps));
}

#[test]
fn station_heard_longest_ago_goes_first(rt: HostRuntime) {
    let lessons = [learnt(A, 1, 0, 0), learnt(B, 1, 0, 0), learnt(A, 1, 5, 0)];
    let steps = [
        Step::Age(0),
        Step::KnowsNot(B),
        Step::Says(own(B, 4, Content::Withdrawn)),
        Step::Knows(A, 1, 5, false),
        Step::Age(4),
        Step::Counter(4),
        Step::Age(5),
        Step::Entries(0),
        Step::Says(own(A, 5, Content::Withdrawn)),
    ];
    assert!(rt; goes(rt.alloc(), 0, false, &lessons, &steps));
}

#[test]
fn lowest_port_is_flushed_first(rt: HostRuntime) {
    let other: Name = (2, 0x0d);
    let lessons = [
        learnt(A, 3, 0, 0),
        learnt(B, 1, 0, 0),
        learnt(C, 1, 0, 0),
        learnt(other, 2, 0, 0),
    ];
    let steps = [
        Step::Pin(D, 1),
        Step::Flush(0b101),
        Step::Says(own(B, 8, Content::Withdrawn)),
        Step::Says(own(C, 9, Content::Withdrawn)),
        Step::Says(own(A, 10, Content::Withdrawn)),
        Step::Knows(other, 2, 0, false),
        Step::Knows(D, 1, 0, true),
        Step::Entries(2),
    ];
    assert!(rt; goes(rt.alloc(), 0, true, &lessons, &steps));
}
