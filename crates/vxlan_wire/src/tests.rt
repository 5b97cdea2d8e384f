//! Tests of the header, written and read, and of each refusal.
use crate::{VxlanRefusal, header, read};
use ether_wire::Vni;

/// A header for identifier 5001, and a broadcast frame of 14 octets.
const DATAGRAM: [u8; 22] = [
    0x08, 0x00, 0x00, 0x00, 0x00, 0x13, 0x89, 0x00, 0xff, 0xff, 0xff, 0xff, 0xff, 0xff, 0x02, 0x00,
    0x00, 0x00, 0x00, 0x0b, 0x08, 0x00,
];

fn reads_as(octets: &[u8], vni: u32, frame: &[u8]) -> bool {
    match read(octets) {
        Ok((found, rest)) => found.number() == vni && rest == frame,
        Err(_) => false,
    }
}

fn is_refused(octets: &[u8], number: u8) -> bool {
    match read(octets) {
        Ok(_) => false,
        Err(refusal) => refusal.number() == number,
    }
}

#[test]
fn datagram_is_header_and_frame(rt: HostRuntime) {
    assert!(rt; reads_as(&DATAGRAM, 5001, &DATAGRAM[8..]));
    assert!(rt; reads_as(&DATAGRAM[..8], 5001, &[]));
}

#[test]
fn header_is_as_the_standard_draws_it(rt: HostRuntime) {
    assert_eq!(rt;
        header(Vni::new(5001)),
        [0x08, 0x00, 0x00, 0x00, 0x00, 0x13, 0x89, 0x00]
    );
    assert_eq!(rt;
        header(Vni::new(0xff_ffff)),
        [0x08, 0x00, 0x00, 0x00, 0xff, 0xff, 0xff, 0x00]
    );
}

#[test]
fn header_without_the_instance_flag_is_refused(rt: HostRuntime) {
    assert!(rt; is_refused(&[0x00, 0x00, 0x00, 0x00, 0x00, 0x13, 0x89, 0x00, 0xff], 2));
    assert!(rt; is_refused(&[0xf7, 0x00, 0x00, 0x00, 0x00, 0x13, 0x89, 0x00], 2));
}

#[test]
fn seven_octets_are_too_short(rt: HostRuntime) {
    assert!(rt; is_refused(&DATAGRAM[..7], 1));
    assert!(rt; is_refused(&[], 1));
}

#[test]
fn other_flags_and_reserved_octets_are_ignored(rt: HostRuntime) {
    assert!(rt;
        reads_as(
            &[0xff, 0xff, 0xff, 0xff, 0x00, 0x13, 0x89, 0xff, 0x01],
            5001,
            &[0x01]
        )
    );
}

#[test]
fn refusals_have_their_numbers(rt: HostRuntime) {
    assert_eq!(rt;
        [
            VxlanRefusal::Short.number(),
            VxlanRefusal::NoInstance.number()
        ],
        [1, 2]
    );
}
