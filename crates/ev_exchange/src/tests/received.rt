//! Tests the updates that are received from octets, in pieces of any size.
use super::{COUNTER, FLOOD, KIND, with};
use crate::{Entrance, Incoming, Receiver, StreamEnd, receive};
use arrayvec::ArrayVec;
use ether_wire::{Addr, FailAt, Octets, Vni};
use ev_report::Ending;
use route_wire::{BAD_MAGIC, COUNTER_ZERO, Content, Key, Update};
use std::alloc::Global;
use std::test::Fail;

/// An entrance that keeps the updates and refusals that it is given.
#[derive(Drop)]
struct Kept {
    updates: Vec<Update>,
    refusals: ArrayVec<u8, 8>,
}

impl Kept {
    /// Returns an entrance that was given nothing yet.
    fn none(alloc: Global) -> Kept {
        Kept {
            updates: Vec::new(alloc),
            refusals: ArrayVec::new(),
        }
    }
}

impl Entrance for Kept {
    ghost use Rattle.std.specs.Prelude.{None};

    ghost given = { λ kept. None };

    fn enter(&mut self, update: &Update) {
        let _ = self.updates.push(*update);
    }

    fn tell(&mut self, refusal: u8) {
        let _ = self.refusals.try_push(refusal);
    }
}

/// Returns the advert, two records with counter 0, and the withdrawal with counter 2.
fn stream() -> ArrayVec<u8, 256> {
    let mut octets = ArrayVec::new();
    let withdrawn = with(with(FLOOD, KIND, 2), COUNTER, 2);
    let zero = with(FLOOD, COUNTER, 0);
    for record in [FLOOD, zero, zero, withdrawn].iter() {
        let _ = octets.try_extend_from_slice(record);
    }
    octets
}

/// Returns `true` if the kept updates are those of `stream`, and the refusal was reported once.
fn is_stream(kept: &Kept) -> bool {
    let [first, second] = kept.updates.as_slice() else {
        return false;
    };
    let key = Key::Flood(Vni::new(5001));
    first.register().originator == Addr::new(0x0a00_0001)
        && first.register().key == key
        && second.register() == first.register()
        && first.value().content != Content::Withdrawn
        && second.value().content == Content::Withdrawn
        && second.value().counter == 2
        && kept.refusals.as_slice() == [COUNTER_ZERO].as_slice()
}

#[test]
fn a_stream_in_one_piece_is_entered_once(rt: HostRuntime) {
    let mut receiver = Receiver::new();
    let mut kept = Kept::none(rt.alloc());
    receiver.take(stream().as_slice(), &mut kept);
    assert!(rt; is_stream(&kept));
    assert_eq!(rt; receiver.refused(COUNTER_ZERO), 2);
    assert_eq!(rt; receiver.refused(255), 0);
    assert_eq!(rt; receiver.end(), StreamEnd::Whole);
}

#[test]
fn a_stream_octet_by_octet_is_entered_once(rt: HostRuntime) {
    let mut receiver = Receiver::new();
    let mut kept = Kept::none(rt.alloc());
    let octets = stream();
    for octet in octets.as_slice().iter() {
        receiver.take(&[*octet], &mut kept);
    }
    assert!(rt; is_stream(&kept));
    assert_eq!(rt; receiver.refused(COUNTER_ZERO), 2);
    receiver.take(&[0x45, 0x56, 0x03], &mut kept);
    assert_eq!(rt; receiver.end(), StreamEnd::Cut(3));
    assert!(rt; is_stream(&kept));
}

#[test]
fn behind_a_fault_nothing_is_read(rt: HostRuntime) {
    let mut receiver = Receiver::new();
    let mut kept = Kept::none(rt.alloc());
    receiver.take(stream().as_slice(), &mut kept);
    receiver.take(b"GET / HTTP/1.1\r\n", &mut kept);
    assert_eq!(rt; receiver.end(), StreamEnd::Faulty(BAD_MAGIC));
    receiver.take(stream().as_slice(), &mut kept);
    assert_eq!(rt; receiver.end(), StreamEnd::Faulty(BAD_MAGIC));
    assert!(rt; is_stream(&kept));
    assert_eq!(rt; receiver.refused(COUNTER_ZERO), 2);
}

/// Receives octets from a reader whose read number `at` fails. Returns the entrance, the result and
/// the number of reads.
fn received(alloc: Global, octets: &[u8], at: u64) -> (Kept, Incoming, u64) {
    let mut kept = Kept::none(alloc);
    let mut reader = FailAt::reader(Octets::new(octets), at);
    let incoming = receive(&mut kept, &mut reader);
    (kept, incoming, reader.calls())
}

#[test]
fn a_reader_is_read_to_its_end(rt: HostRuntime) {
    let (kept, incoming, calls) = received(rt.alloc(), stream().as_slice(), 9);
    assert!(rt; is_stream(&kept));
    assert!(rt; matches!(incoming.ending, Ending::Ended));
    assert_eq!(rt; incoming.end, StreamEnd::Whole);
    assert_eq!(rt; incoming.receiver.refused(COUNTER_ZERO), 2);
    assert_eq!(rt; calls, 2);
}

#[test]
fn behind_a_faulty_piece_no_read_is_made(rt: HostRuntime) {
    let (_, incoming, calls) = received(rt.alloc(), b"GET / HTTP/1.1\r\n", 9);
    assert!(rt; matches!(incoming.ending, Ending::Faulty(BAD_MAGIC)));
    assert_eq!(rt; incoming.end, StreamEnd::Faulty(BAD_MAGIC));
    assert_eq!(rt; calls, 1);
}

#[test]
fn a_failed_read_ends_it(rt: HostRuntime) {
    let (kept, incoming, _) = received(rt.alloc(), stream().as_slice(), 2);
    assert!(rt; is_stream(&kept));
    assert!(rt; matches!(incoming.ending, Ending::Failed));
}
