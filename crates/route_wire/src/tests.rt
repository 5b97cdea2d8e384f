//! Records as octets: each refusal and each fault.
use super::*;
use ether_wire::{Addr, Mac, Vni};
use std::mem::size_of;
use std::test::Fail;

mod feeding;

/// The result for the front of a stream.
#[derive(Clone, Copy, Debug, PartialEq, Eq)]
enum Said {
    Rest,
    Fault(u8),
    Refused(u8),
    Read(Update),
}

fn told(stream: &[u8]) -> Said {
    match whole_of(stream) {
        Whole::Rest => Said::Rest,
        Whole::Fault(fault) => Said::Fault(fault),
        Whole::Length(len) => match read_one(&stream[..len]) {
            Ok(update) => Said::Read(update),
            Err(refusal) => Said::Refused(refusal),
        },
    }
}

fn is_refused(stream: &[u8], refusal: u8) -> bool {
    told(stream) == Said::Refused(refusal)
}

fn is_faulty(stream: &[u8], fault: u8) -> bool {
    whole_of(stream) == Whole::Fault(fault)
}

fn says(stream: &[u8], register: Register, value: Value) -> bool {
    match told(stream) {
        Said::Read(update) => update.register() == register && update.value() == value,
        _ => false,
    }
}

fn is_read(stream: &[u8]) -> bool {
    matches!(told(stream), Said::Read(_))
}

fn set<const N: usize>(mut record: [u8; N], place: usize, octet: u8) -> [u8; N] {
    if let Some(old) = record.get_mut(place) {
        *old = octet;
    }
    record
}

/// Returns `true` if the first record is of a register whose second value is newer, and the reverse
/// doesn't hold.
fn replaces(first: &[u8], second: &[u8]) -> bool {
    let Said::Read(old) = told(first) else {
        return false;
    };
    let Said::Read(new) = told(second) else {
        return false;
    };
    old.register() == new.register() && new.is_newer(&old) && !old.is_newer(&new)
}

/// Returns `true` if the update that is read is written as these octets.
fn is_written_as(stream: &[u8], octets: &[u8]) -> bool {
    match told(stream) {
        Said::Read(update) => write(&update).as_slice() == octets,
        _ => false,
    }
}

/// Address 02:00:00:00:00:0a in network 5001, advertised by 10.0.0.1 with counter 1.
const FIRST: [u8; 56] = [
    0x45, 0x56, 0x01, 0x01, 0x00, 0x32, 0x0a, 0x00, 0x00, 0x01, 0x00, 0x00, 0x00, 0x00, 0x00, 0x00,
    0x00, 0x01, 0x00, 0x13, 0x89, 0x02, 0x21, 0x00, 0x01, 0x0a, 0x00, 0x00, 0x01, 0x00, 0x01, 0x00,
    0x00, 0x00, 0x00, 0x00, 0x00, 0x00, 0x00, 0x00, 0x00, 0x00, 0x00, 0x00, 0x00, 0x30, 0x02, 0x00,
    0x00, 0x00, 0x00, 0x0a, 0x00, 0x00, 0x13, 0x89,
];

/// The first record with counter 5 and a community of sequence number 3.
const MOVED: [u8; 64] = [
    0x45, 0x56, 0x01, 0x01, 0x00, 0x3a, 0x0a, 0x00, 0x00, 0x01, 0x00, 0x00, 0x00, 0x00, 0x00, 0x00,
    0x00, 0x05, 0x00, 0x13, 0x89, 0x02, 0x21, 0x00, 0x01, 0x0a, 0x00, 0x00, 0x01, 0x00, 0x01, 0x00,
    0x00, 0x00, 0x00, 0x00, 0x00, 0x00, 0x00, 0x00, 0x00, 0x00, 0x00, 0x00, 0x00, 0x30, 0x02, 0x00,
    0x00, 0x00, 0x00, 0x0a, 0x00, 0x00, 0x13, 0x89, 0x06, 0x00, 0x00, 0x00, 0x00, 0x00, 0x00, 0x03,
];

/// The first record with the IP address 192.0.2.10.
const WITH_IP: [u8; 60] = [
    0x45, 0x56, 0x01, 0x01, 0x00, 0x36, 0x0a, 0x00, 0x00, 0x01, 0x00, 0x00, 0x00, 0x00, 0x00, 0x00,
    0x00, 0x01, 0x00, 0x13, 0x89, 0x02, 0x25, 0x00, 0x01, 0x0a, 0x00, 0x00, 0x01, 0x00, 0x01, 0x00,
    0x00, 0x00, 0x00, 0x00, 0x00, 0x00, 0x00, 0x00, 0x00, 0x00, 0x00, 0x00, 0x00, 0x30, 0x02, 0x00,
    0x00, 0x00, 0x00, 0x0a, 0x20, 0xc0, 0x00, 0x02, 0x0a, 0x00, 0x13, 0x89,
];

/// The first record with the IP address 2001:db8::1 and the second label 7.
const WITH_LABEL2: [u8; 75] = [
    0x45, 0x56, 0x01, 0x01, 0x00, 0x45, 0x0a, 0x00, 0x00, 0x01, 0x00, 0x00, 0x00, 0x00, 0x00, 0x00,
    0x00, 0x01, 0x00, 0x13, 0x89, 0x02, 0x34, 0x00, 0x01, 0x0a, 0x00, 0x00, 0x01, 0x00, 0x01, 0x00,
    0x00, 0x00, 0x00, 0x00, 0x00, 0x00, 0x00, 0x00, 0x00, 0x00, 0x00, 0x00, 0x00, 0x30, 0x02, 0x00,
    0x00, 0x00, 0x00, 0x0a, 0x80, 0x20, 0x01, 0x0d, 0xb8, 0x00, 0x00, 0x00, 0x00, 0x00, 0x00, 0x00,
    0x00, 0x00, 0x00, 0x00, 0x01, 0x00, 0x13, 0x89, 0x00, 0x00, 0x07,
];

/// The flood list of network 5001 at 10.0.0.1.
const FLOOD: [u8; 40] = [
    0x45, 0x56, 0x01, 0x01, 0x00, 0x22, 0x0a, 0x00, 0x00, 0x01, 0x00, 0x00, 0x00, 0x00, 0x00, 0x00,
    0x00, 0x01, 0x00, 0x13, 0x89, 0x03, 0x11, 0x00, 0x01, 0x0a, 0x00, 0x00, 0x01, 0x00, 0x01, 0x00,
    0x00, 0x00, 0x00, 0x20, 0x0a, 0x00, 0x00, 0x01,
];

/// The first record in version 2, of incarnation 1.
const RESTARTED: [u8; 60] = [
    0x45, 0x56, 0x02, 0x01, 0x00, 0x36, 0x0a, 0x00, 0x00, 0x01, 0x00, 0x00, 0x00, 0x01, 0x00, 0x00,
    0x00, 0x00, 0x00, 0x00, 0x00, 0x01, 0x00, 0x13, 0x89, 0x02, 0x21, 0x00, 0x01, 0x0a, 0x00, 0x00,
    0x01, 0x00, 0x01, 0x00, 0x00, 0x00, 0x00, 0x00, 0x00, 0x00, 0x00, 0x00, 0x00, 0x00, 0x00, 0x00,
    0x00, 0x30, 0x02, 0x00, 0x00, 0x00, 0x00, 0x0a, 0x00, 0x00, 0x13, 0x89,
];

/// In version 3 the withdrawal, with counter 3, of the address that goes with 192.0.2.10.
const WITHDRAWN_IP: [u8; 64] = [
    0x45, 0x56, 0x03, 0x02, 0x00, 0x3a, 0x0a, 0x00, 0x00, 0x01, 0x00, 0x00, 0x00, 0x00, 0x00, 0x00,
    0x00, 0x00, 0x00, 0x00, 0x00, 0x03, 0x00, 0x13, 0x89, 0x02, 0x25, 0x00, 0x01, 0x0a, 0x00, 0x00,
    0x01, 0x00, 0x01, 0x00, 0x00, 0x00, 0x00, 0x00, 0x00, 0x00, 0x00, 0x00, 0x00, 0x00, 0x00, 0x00,
    0x00, 0x30, 0x02, 0x00, 0x00, 0x00, 0x00, 0x0a, 0x20, 0xc0, 0x00, 0x02, 0x0a, 0x00, 0x13, 0x89,
];

fn address(ip: Option<Ip>) -> Register {
    Register {
        originator: Addr::new(0x0a00_0001),
        key: Key::Mac(Vni::new(5001), Mac::new(0x0200_0000_000a), ip),
    }
}

fn flood() -> Register {
    Register {
        originator: Addr::new(0x0a00_0001),
        key: Key::Flood(Vni::new(5001)),
    }
}

/// Returns the address that goes with 192.0.2.10.
fn address_v4() -> Register {
    address(Some(Ip::V4(Addr::new(0xc000_020a))))
}

/// Returns the address that goes with 2001:db8::1.
fn address_v6() -> Register {
    address(Some(Ip::V6(Addr6::new(0x2001_0db8_0000_0000_0000_0000_0000_0001))))
}

fn dynamic(counter: u64, sequence: u32, label2: Option<Vni>) -> Value {
    let advert = Advert {
        is_static: false,
        sequence,
        label2,
    };
    Value {
        incarnation: 0,
        counter,
        content: Content::Advert(advert),
    }
}

fn withdrawn(counter: u64) -> Value {
    Value {
        incarnation: 0,
        counter,
        content: Content::Withdrawn,
    }
}

#[test]
fn keys_and_addresses_are_printed_as_in_a_report(rt: HostRuntime) -> Result<(), Fail> {
    assert_eq!(rt; flood().key.to_string(rt.alloc())?.as_str(), "flood 5001");
    assert_eq!(rt;
        address(None).key.to_string(rt.alloc())?.as_str(),
        "mac 5001 02:00:00:00:00:0a"
    );
    assert_eq!(rt;
        address_v4().key.to_string(rt.alloc())?.as_str(),
        "mac 5001 02:00:00:00:00:0a ip 192.0.2.10"
    );
    assert_eq!(rt;
        address_v6().key.to_string(rt.alloc())?.as_str(),
        "mac 5001 02:00:00:00:00:0a ip 2001:0db8:0000:0000:0000:0000:0000:0001"
    );
    Ok(())
}

#[test]
fn keys_stand_in_report_order(rt: HostRuntime) {
    let other = Key::Mac(Vni::new(5001), Mac::new(0x0200_0000_000b), None);
    let next = Key::Flood(Vni::new(5002));
    assert!(rt;
        flood().key < address(None).key,
        "a flood list before the addresses"
    );
    assert!(rt; address(None).key < address_v4().key, "no IP address first");
    assert!(rt;
        address_v4().key < address_v6().key,
        "then IPv4 before IPv6"
    );
    assert!(rt; address_v6().key < other, "the MAC before the IP address");
    assert!(rt; other < next, "the network before all");
}

#[test]
fn first_record_is_read(rt: HostRuntime) {
    assert!(rt; says(&FIRST, address(None), dynamic(1, 0, None)));
}

#[test]
fn each_refusal_has_its_record(rt: HostRuntime) {
    assert!(rt; is_refused(&set(FIRST, 21, 0x04), 5), "route type");
    assert!(rt;
        is_refused(&set(FIRST, 52, 0x20), 6),
        "length of the IP address"
    );
    assert!(rt; is_refused(&set(FIRST, 28, 0x02), 7), "route distinguisher");
    assert!(rt; is_refused(&set(FIRST, 40, 0x01), 8), "Ethernet segment");
    assert!(rt; is_refused(&set(FIRST, 44, 0x01), 9), "Ethernet Tag");
    assert!(rt; is_refused(&set(FIRST, 55, 0x8a), 10), "first label");
    assert!(rt; is_refused(&set(FIRST, 46, 0x03), 11), "group address");
    assert!(rt; is_refused(&set(FIRST, 17, 0x00), 14), "counter");
}

#[test]
fn withdrawals_ignore_segment_and_labels(rt: HostRuntime) {
    let record = set(set(FIRST, 3, 0x02), 17, 0x02);
    assert!(rt; says(&record, address(None), withdrawn(2)));
    assert!(rt;
        says(&set(record, 40, 0x01), address(None), withdrawn(2)),
        "segment"
    );
    assert!(rt;
        says(&set(record, 55, 0x8a), address(None), withdrawn(2)),
        "first label"
    );
    assert!(rt;
        is_refused(&set(record, 52, 0x20), 6),
        "length of the IP address"
    );
    assert!(rt;
        is_refused(&set(record, 28, 0x02), 7),
        "route distinguisher"
    );
    assert!(rt; is_refused(&set(record, 44, 0x01), 9), "Ethernet Tag");
    assert!(rt; is_refused(&set(record, 45, 0x20), 11), "length of the MAC");
    assert!(rt; is_refused(&set(MOVED, 3, 0x02), 6), "a community");
}

#[test]
fn flood_lists_are_read(rt: HostRuntime) {
    assert!(rt; says(&FLOOD, flood(), dynamic(1, 0, None)));
    assert!(rt; says(&set(FLOOD, 3, 0x02), flood(), withdrawn(1)));
    assert!(rt; is_refused(&set(FLOOD, 39, 0x02), 7), "another router");
    assert!(rt;
        is_refused(&set(set(FLOOD, 3, 0x02), 39, 0x02), 7),
        "another router withdraws"
    );
    assert!(rt;
        is_refused(&set(FLOOD, 35, 0x80), 6),
        "length of the IP address"
    );
}

#[test]
fn addresses_and_second_labels_are_read(rt: HostRuntime) {
    assert!(rt; says(&WITH_IP, address_v4(), dynamic(1, 0, None)));
    assert!(rt; says(&WITH_LABEL2, address_v6(), dynamic(1, 0, Some(Vni::new(7)))));
    assert!(rt;
        says(&set(WITH_IP, 3, 0x02), address(None), withdrawn(1)),
        "version 1 names no IP"
    );
    assert!(rt;
        says(&WITHDRAWN_IP, address_v4(), withdrawn(3)),
        "version 3 names it"
    );
    assert!(rt;
        says(&set(WITHDRAWN_IP, 2, 0x02), address(None), withdrawn(3)),
        "version 2 doesn't"
    );
    assert!(rt; is_refused(&set(WITHDRAWN_IP, 56, 0x00), 6));
}

#[test]
fn communities_tell_sequence_and_static(rt: HostRuntime) {
    assert!(rt; says(&MOVED, address(None), dynamic(5, 3, None)));
    let spare = set(set(set(MOVED, 58, 0xfe), 59, 0xff), 63, 0x04);
    assert!(rt;
        says(&spare, address(None), dynamic(5, 4, None)),
        "other bits are ignored"
    );
    let fixed = Advert {
        is_static: true,
        sequence: 3,
        label2: None,
    };
    let value = Value {
        incarnation: 0,
        counter: 5,
        content: Content::Advert(fixed),
    };
    assert!(rt; says(&set(MOVED, 58, 0x01), address(None), value));
    assert!(rt; is_refused(&set(MOVED, 56, 0x03), 6), "another community");
}

#[test]
fn incarnations_are_read(rt: HostRuntime) {
    let value = Value {
        incarnation: 1,
        ..dynamic(1, 0, None)
    };
    assert!(rt; says(&RESTARTED, address(None), value));
    assert!(rt; is_faulty(&[0x45, 0x56, 0x02, 0x01, 0x00, 0x12], 4));
    assert!(rt; is_faulty(&[0x45, 0x56, 0x04], 2));
    assert!(rt; is_faulty(&[0x45, 0x56, 0x00], 2));
}

#[test]
fn lengths_have_bounds(rt: HostRuntime) {
    assert!(rt; is_faulty(&[0x45, 0x56, 0x01, 0x01, 0x00, 0x0e], 4));
    assert!(rt; is_faulty(&[0x45, 0x56, 0x01, 0x01, 0x02, 0x01], 4));
    assert!(rt;
        is_refused(&set(FIRST, 5, 0x0f), 6),
        "a record of 21 octets"
    );
    let mut long = [0; 574];
    long[..56].copy_from_slice(&FIRST);
    long[518..].copy_from_slice(&FIRST);
    let stream = set(set(long, 4, 0x02), 5, 0x00);
    assert_eq!(rt; whole_of(&stream), Whole::Length(518));
    assert!(rt; is_refused(&stream, 6));
    assert!(rt; is_read(&stream[518..]));
}

// A table keeps an update for each register.
#[test]
fn an_update_takes_80_octets(rt: HostRuntime) {
    assert_eq!(rt; size_of::<Update>(), 80);
}

#[test]
fn newer_values_replace_older_ones(rt: HostRuntime) {
    let later = set(FIRST, 17, 0x09);
    let withdrawn = set(set(FIRST, 3, 0x02), 17, 0x02);
    assert!(rt;
        replaces(&FIRST, &withdrawn),
        "a withdrawal outlives an old advert"
    );
    assert!(rt;
        replaces(&MOVED, &set(MOVED, 63, 0x04)),
        "at equal counters the sequence decides"
    );
    assert!(rt;
        replaces(&set(MOVED, 63, 0xff), &set(MOVED, 58, 0x01)),
        "static is above dynamic"
    );
    assert!(rt;
        replaces(&set(set(FIRST, 3, 0x02), 17, 0x01), &FIRST),
        "withdrawn is lowest"
    );
    assert!(rt; replaces(&later, &RESTARTED), "the incarnation comes first");
}

#[test]
fn each_cut_of_a_record_is_a_rest(rt: HostRuntime) {
    for len in 0..FIRST.len() {
        assert_eq!(rt; told(&FIRST[..len]), Said::Rest, "{len} octets");
    }
    for len in 0..WITHDRAWN_IP.len() {
        assert_eq!(rt; told(&WITHDRAWN_IP[..len]), Said::Rest, "{len} octets");
    }
    assert!(rt; is_read(&FIRST));
    assert!(rt; is_faulty(&[0x45, 0x57], 1));
}

/// Returns the result for the first record with the octet at a place set to 00 or to ff: 0 if it is
/// read, 100 plus the number of a fault, 200 for a rest, else the refusal.
fn outcome(place: usize, is_high: bool) -> u8 {
    match (place, is_high) {
        (0 | 1, _) => 101,
        (2, _) => 102,
        (3, _) => 103,
        (4, true) | (5, false) => 104,
        (5, true) => 200,
        (7 | 8, false) => 0,
        (6..10, _) => 7,
        (17, false) => 14,
        (18 | 53, false) => 0,
        (18..21 | 53..56, _) => 10,
        (21, _) => 5,
        (22, _) => 6,
        (23 | 26 | 27 | 29 | 30, false) | (29 | 30, true) => 0,
        (23..29, _) => 7,
        (31..41, true) => 8,
        (41..45, true) => 9,
        (45, _) | (46, true) => 11,
        (52, true) => 6,
        _ => 0,
    }
}

fn outcome_of(told: Said) -> u8 {
    match told {
        Said::Read(_) => 0,
        Said::Rest => 200,
        Said::Fault(fault) => fault.saturating_add(100),
        Said::Refused(refusal) => refusal,
    }
}

#[test]
fn each_octet_of_the_first_record_matters_as_the_format_says(rt: HostRuntime) {
    for place in 0..FIRST.len() {
        let low = outcome_of(told(&set(FIRST, place, 0x00)));
        let high = outcome_of(told(&set(FIRST, place, 0xff)));
        assert_eq!(rt; low, outcome(place, false), "octet {place} set to 00");
        assert_eq!(rt; high, outcome(place, true), "octet {place} set to ff");
    }
}

#[test]
fn records_are_written_in_version_3(rt: HostRuntime) {
    assert!(rt; is_written_as(&WITHDRAWN_IP, &WITHDRAWN_IP));
    assert!(rt; is_written_as(&RESTARTED, &set(RESTARTED, 2, 0x03)));
    assert!(rt; is_written_as(&FIRST, &set(set(RESTARTED, 2, 0x03), 13, 0x00)));
    assert!(rt;
        is_written_as(
            &set(FIRST, 30, 0x09),
            &set(set(RESTARTED, 2, 0x03), 13, 0x00)
        ),
        "the distinguisher's number is 1"
    );
}
