//! The names of devices, by the row `device` of docs/configuration.md.

use crate::DeviceName;

// Whether a text is read as a name with this text.
fn is_name(text: &[u8]) -> bool {
    match DeviceName::read_text(text) {
        Some(name) => name.text() == text,
        None => false,
    }
}

#[test]
fn name_has_1_to_15_octets(rt: HostRuntime) {
    assert!(rt; DeviceName::read_text(b"").is_none());
    assert!(rt; is_name(b"a"));
    assert!(rt; is_name(b"abcdefghijklmno"));
    assert!(rt; DeviceName::read_text(b"abcdefghijklmnop").is_none());
}

#[test]
fn name_has_letters_digits_and_three_marks(rt: HostRuntime) {
    assert!(rt; is_name(b"tap0"));
    assert!(rt; is_name(b"Tap-1.20_x"));
    assert!(rt; is_name(b"azAZ09"));
    for text in [
        b"tap/0".as_slice(),
        b"tap 0".as_slice(),
        b"tap0\n".as_slice(),
        b"tap0\0".as_slice(),
        b"t\xc3\xa4p".as_slice(),
        b"@".as_slice(),
        b"[".as_slice(),
        b"`".as_slice(),
        b"{".as_slice(),
        b":".as_slice(),
    ] {
        assert!(rt; DeviceName::read_text(text).is_none());
    }
}

// Upper and lower case letters are different.
#[test]
fn names_are_equal_exactly_if_their_texts_are(rt: HostRuntime) {
    let name = DeviceName::read_text(b"tap1");
    assert!(rt; name.is_some());
    assert!(rt; name == DeviceName::read_text(b"tap1"));
    assert!(rt; name != DeviceName::read_text(b"tap10"));
    assert!(rt; name != DeviceName::read_text(b"Tap1"));
}
