//! Addresses and numbers as text, written and read.
ghost use Rattle.std.specs.Prelude.{◌≡◌};

use crate::{
    Addr, Mac, Page, Vni, hex_group_at, parted, put_addr, put_decimal, put_mac, read_decimal,
};
use std::test::Fail;

fn is_mac(text: &[u8], number: u64) -> bool {
    match Mac::read_text(text) {
        Some(mac) => mac.number() == number,
        None => false,
    }
}

fn is_addr(text: &[u8], number: u32) -> bool {
    match Addr::read_text(text) {
        Some(address) => address.number() == number,
        None => false,
    }
}

#[test]
fn names_are_printed_in_one_spelling(rt: HostRuntime) -> Result<(), Fail> {
    assert_eq!(rt;
        Mac::new(0x0200_0000_000a).to_string(rt.alloc())?.as_str(),
        "02:00:00:00:00:0a"
    );
    assert_eq!(rt;
        Mac::new(0xff00_a9b8_c7de).to_string(rt.alloc())?.as_str(),
        "ff:00:a9:b8:c7:de"
    );
    assert_eq!(rt; Vni::new(5001).to_string(rt.alloc())?.as_str(), "5001");
    assert_eq!(rt;
        Addr::new(0x0a00_0001).to_string(rt.alloc())?.as_str(),
        "10.0.0.1"
    );
    assert_eq!(rt;
        Addr::new(0xc000_02ff).to_string(rt.alloc())?.as_str(),
        "192.0.2.255"
    );
    Ok(())
}

#[test]
fn names_are_put_as_they_are_printed(rt: HostRuntime) {
    let mut page: Page<64> = Page::new();
    assert!(rt; put_mac(&mut page, Mac::new(0x0200_0000_000a)).is_ok());
    assert_eq!(rt; page.octets(), b"02:00:00:00:00:0a".as_slice());
    let mut page: Page<64> = Page::new();
    assert!(rt; put_addr(&mut page, Addr::new(0xc000_020a)).is_ok());
    assert_eq!(rt; page.octets(), b"192.0.2.10".as_slice());
    let mut page: Page<64> = Page::new();
    assert!(rt; put_decimal(&mut page, u64::MAX).is_ok());
    assert_eq!(rt; page.octets(), b"18446744073709551615".as_slice());
    let mut line = [b'x'; 6];
    assert_eq!(rt; hex_group_at(&mut line, 1, 0x0db8), 5);
    assert_eq!(rt; line.as_slice(), b"x0db8x".as_slice());
}

#[test]
fn mac_address_is_read_in_its_one_spelling(rt: HostRuntime) {
    assert!(rt; is_mac(b"02:00:00:00:00:0a", 0x0200_0000_000a));
    assert!(rt; is_mac(b"ff:00:a9:b8:c7:de", 0xff00_a9b8_c7de));
    for text in [
        b"02:00:00:00:00:0A".as_slice(),
        b"2:00:00:00:00:0a",
        b"02-00-00-00-00-0a",
        b"02:00:00:00:00",
        b"02:00:00:00:00:0a:",
        b"02:00:00:00:00:0a ",
        b"02:00:00:00:00:0g",
        b"",
    ] {
        assert!(rt; Mac::read_text(text).is_none());
    }
}

#[test]
fn ipv4_address_is_read_in_its_one_spelling(rt: HostRuntime) {
    assert!(rt; is_addr(b"10.0.0.1", 0x0a00_0001));
    assert!(rt; is_addr(b"255.255.255.255", 0xffff_ffff));
    assert!(rt; is_addr(b"0.0.0.0", 0));
    for text in [
        b"10.0.0.01".as_slice(),
        b"10.0.0.256",
        b"10.0.0",
        b"10.0.0.1.2",
        b"10.0.0.",
        b" 10.0.0.1",
        b"10.0.0.+1",
        b"",
    ] {
        assert!(rt; Addr::read_text(text).is_none());
    }
}

#[test]
fn decimal_number_has_no_leading_zeros_and_is_in_its_range(rt: HostRuntime) {
    assert_eq!(rt; read_decimal(b"0", 64), Some(0));
    assert_eq!(rt; read_decimal(b"64", 64), Some(64));
    assert_eq!(rt; read_decimal(b"65", 64), None);
    assert_eq!(rt;
        read_decimal(b"18446744073709551615", u64::MAX),
        Some(u64::MAX)
    );
    for text in [
        b"".as_slice(),
        b"00",
        b"01",
        b"+1",
        b"-1",
        b"1a",
        b" 1",
        b"18446744073709551616",
    ] {
        assert_eq!(rt; read_decimal(text, u64::MAX), None);
    }
    assert!(rt; Vni::read_text(b"16777215") == Some(Vni::new(0xff_ffff)));
    assert!(rt; Vni::read_text(b"16777216").is_none());
}

fn parts(octet: u8, text: &[u8], front: &[u8], back: &[u8]) -> bool {
    match parted(octet, text) {
        Some((before, after)) => before == front && after == back,
        None => false,
    }
}

#[test]
fn text_is_parted_at_the_first_such_octet(rt: HostRuntime) {
    assert!(rt; parts(b' ', b"frame 1 00ff", b"frame", b"1 00ff"));
    assert!(rt; parts(b',', b",", b"", b""));
    assert!(rt; parted(b',', b"10.0.0.1").is_none());
}

/// Returns `true` if the number is put as this text.
fn is_put(number: u64, text: &[u8]) -> bool {
    let mut page: Page<64> = Page::new();
    put_decimal(&mut page, number).is_ok() && page.octets() == text
}

// Pairs at each bound where the number of digits, or the way of writing them, changes.
#[test]
fn decimals_are_put_without_leading_zeros(rt: HostRuntime) {
    assert!(rt; is_put(0, b"0"));
    assert!(rt; is_put(9, b"9") && is_put(10, b"10"));
    assert!(rt; is_put(99, b"99") && is_put(100, b"100"));
    assert!(rt; is_put(999, b"999") && is_put(1_000, b"1000"));
    assert!(rt; is_put(9_999, b"9999") && is_put(10_000, b"10000"));
    assert!(rt; is_put(10_005, b"10005") && is_put(120_034, b"120034"));
    assert!(rt; is_put(99_999_999, b"99999999") && is_put(100_000_000, b"100000000"));
    assert!(rt; is_put(100_000_001, b"100000001"));
}

#[test]
fn octets_of_addresses_are_put_without_leading_zeros(rt: HostRuntime) {
    let mut page: Page<64> = Page::new();
    assert!(rt; put_addr(&mut page, Addr::new(0x0063_6409)).is_ok());
    assert_eq!(rt; page.octets(), b"0.99.100.9".as_slice());
    let mut page: Page<64> = Page::new();
    assert!(rt; put_addr(&mut page, Addr::new(0xff0a_0063)).is_ok());
    assert_eq!(rt; page.octets(), b"255.10.0.99".as_slice());
}

#[test]
fn each_hexadecimal_digit_is_put(rt: HostRuntime) {
    let mut page: Page<64> = Page::new();
    assert!(rt; put_mac(&mut page, Mac::new(0x0123_4567_89ab)).is_ok());
    assert_eq!(rt; page.octets(), b"01:23:45:67:89:ab".as_slice());
    let mut line = [b'x'; 4];
    assert_eq!(rt; hex_group_at(&mut line, 0, 0xcdef), 4);
    assert_eq!(rt; line.as_slice(), b"cdef".as_slice());
}
