//! Feeds: every cutting of a stream, faults that stay, and the rest at the end.

use super::{FIRST, RESTARTED, WITHDRAWN_IP, address, dynamic, set};
use crate::{BAD_MAGIC, Feed, Next, Truncated, UNKNOWN_TYPE, Update};

/// Feeds a piece and counts the updates, which must be the first record's; returns 1000 if anything
/// else is returned.
fn count_of(feed: &mut Feed, piece: &[u8]) -> u32 {
    let mut start = 0;
    for found in 0..4 {
        if start <= piece.len() {
            start += feed.feed(&piece[start..]);
        }
        match feed.next() {
            Next::More => return found,
            Next::Record(update) => {
                if !is_first(&update) {
                    return 1000;
                }
            }
            _ => return 1000,
        }
    }
    1000
}

fn is_first(update: &Update) -> bool {
    update.register() == address(None) && update.value() == dynamic(1, 0, None)
}

fn end_of(feed: &mut Feed) -> Option<Result<(), Truncated>> {
    match feed.next() {
        Next::More => Some(feed.end()),
        _ => None,
    }
}

/// Returns `true` if the feed returns the fault, also after it was fed more.
fn stays_faulty(feed: &mut Feed, fault: u8) -> bool {
    let first = feed.next();
    let taken = feed.feed(&FIRST);
    taken == FIRST.len() && first == Next::Fault(fault) && feed.next() == Next::Fault(fault)
}

fn three_records() -> [u8; 168] {
    let mut stream = [0; 168];
    stream[..56].copy_from_slice(&FIRST);
    stream[56..112].copy_from_slice(&FIRST);
    stream[112..].copy_from_slice(&FIRST);
    stream
}

#[test]
fn a_stream_cut_in_two_is_read_as_one(rt: HostRuntime) {
    let stream = three_records();
    for cut in 0..stream.len() {
        let mut feed = Feed::new();
        let first = count_of(&mut feed, &stream[..cut]);
        let second = count_of(&mut feed, &stream[cut..]);
        assert_eq!(rt; first, cut as u32 / 56, "before octet {cut}");
        assert_eq!(rt; second, 3 - cut as u32 / 56, "from octet {cut} on");
        assert_eq!(rt; end_of(&mut feed), Some(Ok(())));
    }
}

#[test]
fn a_stream_of_single_octets_is_read(rt: HostRuntime) {
    let stream = three_records();
    let mut feed = Feed::new();
    for place in 0..stream.len() {
        let found = count_of(&mut feed, &stream[place..place + 1]);
        assert_eq!(rt; found, u32::from(place % 56 == 55), "octet {place}");
    }
    assert_eq!(rt; end_of(&mut feed), Some(Ok(())));
}

/// Takes from a piece until it yields no more, and counts the first record's updates; returns 1000
/// if anything else is returned.
fn taken_of(feed: &mut Feed, piece: &[u8]) -> u32 {
    let mut start = 0;
    for found in 0..4 {
        if piece.len() < start {
            return 1000;
        }
        let (n, next) = feed.take(&piece[start..]);
        start += n;
        match next {
            Next::More => return found,
            Next::Record(update) => {
                if !is_first(&update) {
                    return 1000;
                }
            }
            _ => return 1000,
        }
    }
    1000
}

#[test]
fn records_are_read_where_they_lie_and_across_pieces(rt: HostRuntime) {
    let stream = three_records();
    for cut in 0..stream.len() {
        let mut feed = Feed::new();
        let first = taken_of(&mut feed, &stream[..cut]);
        let second = taken_of(&mut feed, &stream[cut..]);
        assert_eq!(rt; first, cut as u32 / 56, "before octet {cut}");
        assert_eq!(rt; second, 3 - cut as u32 / 56, "from octet {cut} on");
        assert_eq!(rt; end_of(&mut feed), Some(Ok(())));
    }
}

#[test]
fn a_fault_and_a_refusal_are_taken_where_they_lie(rt: HostRuntime) {
    let mut feed = Feed::new();
    assert_eq!(rt;
        feed.take(&set(FIRST, 21, 0x04)),
        (56, Next::Refused(UNKNOWN_TYPE))
    );
    assert_eq!(rt; feed.take(&[0x45, 0x57, 0x01]), (2, Next::Fault(BAD_MAGIC)));
    assert_eq!(rt; feed.take(&FIRST), (56, Next::Fault(BAD_MAGIC)));
}

#[test]
fn an_unfinished_record_is_truncated(rt: HostRuntime) {
    let mut feed = Feed::new();
    assert_eq!(rt; count_of(&mut feed, &FIRST[..55]), 0);
    assert_eq!(rt; end_of(&mut feed), Some(Err(Truncated { octets: 55 })));
}

#[test]
fn faults_stay(rt: HostRuntime) {
    let mut feed = Feed::new();
    assert_eq!(rt; count_of(&mut feed, &FIRST), 1);
    assert_eq!(rt; feed.feed(&[0x45, 0x57, 0x01]), 2);
    assert!(rt; stays_faulty(&mut feed, 1));
}

#[test]
fn refused_records_are_passed_over(rt: HostRuntime) {
    let mut feed = Feed::new();
    assert_eq!(rt; feed.feed(&set(FIRST, 21, 0x04)), 56);
    assert_eq!(rt; feed.next(), Next::Refused(5));
    assert_eq!(rt; count_of(&mut feed, &FIRST), 1);
}

#[test]
fn old_feeds_know_two_versions(rt: HostRuntime) {
    let mut feed = Feed::old();
    assert_eq!(rt; count_of(&mut feed, &FIRST), 1);
    assert_eq!(rt; feed.feed(&RESTARTED), 60);
    assert!(rt; matches!(feed.next(), Next::Record(_)));
    assert_eq!(rt; feed.feed(&WITHDRAWN_IP), 3);
    assert!(rt; stays_faulty(&mut feed, 2));
}
