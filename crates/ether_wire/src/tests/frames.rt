//! Frames at the bounds of their lengths, and the frame of a BPDU.
use crate::{Frame, FrameRefusal, Kind, Mac, write_bpdu_frame};

// Returns a frame from 02:00:00:00:00:0b to all, with this type or length and no payload.
fn header(number: u16) -> [u8; 14] {
    let [high, low] = number.to_be_bytes();
    [
        0xff, 0xff, 0xff, 0xff, 0xff, 0xff, 0x02, 0x00, 0x00, 0x00, 0x00, 0x0b, high, low,
    ]
}

fn is_refused(octets: &[u8], refusal: FrameRefusal) -> bool {
    match Frame::read(octets) {
        Ok(_) => false,
        Err(found) => found == refusal,
    }
}

fn has(octets: &[u8], kind: Kind, payload: &[u8]) -> bool {
    match Frame::read(octets) {
        Ok(frame) => {
            frame.octets() == octets
                && frame.destination() == Mac::new(0xffff_ffff_ffff)
                && frame.source() == Mac::new(0x0200_0000_000b)
                && frame.kind() == kind
                && frame.payload() == payload
        }
        Err(_) => false,
    }
}

// A buffer that begins with a header.
fn begun<const N: usize>(header: [u8; 14]) -> [u8; N] {
    let mut octets = [0xee; N];
    if 14 <= octets.len() {
        octets[..14].copy_from_slice(&header);
    }
    octets
}

#[test]
fn thirteen_octets_are_too_short_and_fourteen_are_a_frame(rt: HostRuntime) {
    assert!(rt; is_refused(&header(0x0800)[..13], FrameRefusal::Short));
    assert!(rt; is_refused(&[], FrameRefusal::Short));
    assert!(rt; has(&header(0x0800), Kind::EtherType(0x0800), &[]));
}

#[test]
fn all_that_follows_a_type_is_the_payload(rt: HostRuntime) {
    let octets: [u8; 60] = begun(header(0x0806));
    assert!(rt; has(&octets, Kind::EtherType(0x0806), &[0xee; 46]));
}

#[test]
fn longest_frame_has_9018_octets(rt: HostRuntime) {
    let octets: [u8; 9018] = begun(header(0x0800));
    assert!(rt; has(&octets, Kind::EtherType(0x0800), &[0xee; 9004]));
    let octets: [u8; 9019] = begun(header(0x0800));
    assert!(rt; is_refused(&octets, FrameRefusal::Long));
}

#[test]
fn a_length_ends_the_payload_and_padding_follows(rt: HostRuntime) {
    let octets: [u8; 60] = begun(header(3));
    assert!(rt; has(&octets, Kind::Length(3), &[0xee; 3]));
    let octets: [u8; 60] = begun(header(0));
    assert!(rt; has(&octets, Kind::Length(0), &[]));
    let octets: [u8; 60] = begun(header(46));
    assert!(rt; has(&octets, Kind::Length(46), &[0xee; 46]));
}

#[test]
fn a_length_beyond_the_octets_is_refused(rt: HostRuntime) {
    let octets: [u8; 60] = begun(header(47));
    assert!(rt; is_refused(&octets, FrameRefusal::BadLength));
    assert!(rt; is_refused(&header(1), FrameRefusal::BadLength));
}

#[test]
fn the_greatest_length_is_1500_and_1501_is_a_type(rt: HostRuntime) {
    let octets: [u8; 1514] = begun(header(1500));
    assert!(rt; has(&octets, Kind::Length(1500), &[0xee; 1500]));
    let octets: [u8; 1513] = begun(header(1500));
    assert!(rt; is_refused(&octets, FrameRefusal::BadLength));
    assert!(rt; has(&header(1501), Kind::EtherType(1501), &[]));
}

#[test]
fn refusals_have_their_numbers(rt: HostRuntime) {
    let numbers = [
        FrameRefusal::Short.number(),
        FrameRefusal::Long.number(),
        FrameRefusal::BadLength.number(),
    ];
    assert_eq!(rt; numbers, [1, 2, 3]);
}

#[test]
fn groups_and_reserved_addresses_are_told(rt: HostRuntime) {
    assert!(rt; Mac::new(0xffff_ffff_ffff).is_group());
    assert!(rt; Mac::new(0x0300_0000_000a).is_group());
    assert!(rt; !Mac::new(0x0200_0000_000a).is_group());
    assert!(rt; Mac::new(0x0180_c200_0000).is_reserved());
    assert!(rt; Mac::new(0x0180_c200_000f).is_reserved());
    assert!(rt; !Mac::new(0x0180_c200_0010).is_reserved());
    assert!(rt; !Mac::new(0x0180_c1ff_ffff).is_reserved());
}

#[test]
fn bpdu_is_framed_and_padded_to_60_octets(rt: HostRuntime) {
    let mut frame = [0xee; 60];
    write_bpdu_frame(
        &mut frame,
        Mac::new(0x02aa_0000_0001),
        &[0x00, 0x00, 0x00, 0x80],
    );
    let written: [u8; 22] = [
        0x01, 0x80, 0xc2, 0x00, 0x00, 0x00, 0x02, 0xaa, 0x00, 0x00, 0x00, 0x01, 0x00, 0x07, 0x42,
        0x42, 0x03, 0x00, 0x00, 0x00, 0x80, 0x00,
    ];
    assert_eq!(rt; &frame[..22], written.as_slice());
    assert_eq!(rt; &frame[22..], [0; 38].as_slice());
    write_bpdu_frame(&mut frame, Mac::new(0x02aa_0000_0001), &[0x55; 43]);
    assert_eq!(rt; frame[13], 46);
    assert_eq!(rt; frame[59], 0x55);
}
