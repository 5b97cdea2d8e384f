//! Hints about the wrong part of a value, and about the key that was meant. Their texts are tested,
//! not proved.

use crate::message_buffer::MessageBuffer;
use crate::schema::Row;
use ether_wire::{Mac, parted, read_decimal};
use std::alloc::Global;
use strsim::levenshtein;

/// The fault of a part of a text.
#[derive(Clone, Copy)]
enum Flaw {
    /// A zero before other digits.
    LeadingZero,
    /// The number is above this one.
    Above(u64),
    /// A digit is in upper case.
    UpperCase,
}

/// A part of a text, and its fault.
#[derive(Clone, Copy)]
struct Hint<'a> {
    /// The name of the part.
    name: &'static str,
    /// Decimal or hexadecimal digits.
    part: &'a [u8],
    /// The fault.
    flaw: Flaw,
}

/// Returns the text before and after the first such octet, or `None` if there is none.
fn cut(octet: u8, text: &[u8]) -> (&[u8], &[u8]) {
    match parted(octet, text) {
        Some(parts) => parts,
        None => text.split_at(text.len()),
    }
}

/// Returns the fault of a decimal number of at most `max`, if it has only digits.
fn decimal_flaw(part: &[u8], max: u64) -> Option<Flaw> {
    if !part.iter().all(|octet| octet.is_ascii_digit()) {
        return None;
    }
    match part {
        [] => None,
        [b'0', _, ..] => Some(Flaw::LeadingZero),
        _ => match read_decimal(part, max) {
            None => Some(Flaw::Above(max)),
            Some(_) => None,
        },
    }
}

/// Returns the first octet of an IPv4 address that has a flaw.
fn addr_hint(text: &[u8]) -> Option<Hint<'_>> {
    let mut rest = text;
    for _octet in 0..4 {
        let (part, more) = cut(b'.', rest);
        if let Some(flaw) = decimal_flaw(part, 255) {
            return Some(Hint {
                name: "octet",
                part,
                flaw,
            });
        }
        rest = more;
    }
    None
}

/// Returns `true` for two hexadecimal digits, one of them in upper case.
fn is_upper_pair(pair: &[u8]) -> bool {
    match pair {
        [high, low] => {
            high.is_ascii_hexdigit()
                && low.is_ascii_hexdigit()
                && (high.is_ascii_uppercase() || low.is_ascii_uppercase())
        }
        _ => false,
    }
}

/// Returns the first pair of digits of a MAC address that isn't in lower case.
fn mac_hint(text: &[u8]) -> Option<Hint<'_>> {
    let mut rest = text;
    for _pair in 0..6 {
        let (part, more) = cut(b':', rest);
        if is_upper_pair(part) {
            return Some(Hint {
                name: "pair",
                part,
                flaw: Flaw::UpperCase,
            });
        }
        rest = more;
    }
    None
}

/// Returns the fault of an IPv4 address with a UDP port.
fn endpoint_hint(text: &[u8]) -> Option<Hint<'_>> {
    let (address, port) = cut(b':', text);
    match addr_hint(address) {
        Some(hint) => Some(hint),
        None => Some(Hint {
            name: "port",
            part: port,
            flaw: decimal_flaw(port, 65_535)?,
        }),
    }
}

/// Returns the part of a text at this key that is known to be wrong.
fn hint_of<'a>(key: &str, text: &'a [u8]) -> Option<Hint<'a>> {
    match key {
        "address" => addr_hint(text),
        "bridge" => mac_hint(text),
        "local" | "remote" => endpoint_hint(text),
        _ => None,
    }
}

/// Writes the fault of a part.
fn put_flaw(line: &mut MessageBuffer, flaw: Flaw) {
    match flaw {
        Flaw::LeadingZero => line.put(b" has a leading zero"),
        Flaw::UpperCase => line.put(b" isn't in lower case"),
        Flaw::Above(max) => {
            line.put(b" is above ");
            line.put_number(max);
        }
    }
}

/// Writes which part of a text is wrong: `, whose octet 02 has a leading zero`.
fn put_part(line: &mut MessageBuffer, hint: Hint<'_>) {
    line.put(b", whose ");
    line.put(hint.name.as_bytes());
    line.put(b" ");
    line.put(hint.part);
    put_flaw(line, hint.flaw);
}

/// Returns `true` if the text spells a MAC address of a group.
fn is_group(text: &[u8]) -> bool {
    match Mac::read_text(text) {
        Some(mac) => mac.is_group(),
        None => false,
    }
}

/// Writes the fault of a text at a key, if it is known.
pub(crate) fn put_hint(line: &mut MessageBuffer, key: &str, text: &str) {
    if key == "bridge" && is_group(text.as_bytes()) {
        line.put(b", the address of a group");
    } else if let Some(hint) = hint_of(key, text.as_bytes()) {
        put_part(line, hint);
    }
}

/// Returns the key that an unknown one resembles: the nearest by edits, if there are at most a
/// third as many edits as its length.
pub(crate) fn meant(alloc: Global, rows: &[Row], key: &str) -> Option<&'static str> {
    let mut least = key.len() / 3 + 1;
    let mut found = None;
    for row in rows {
        if let Ok(edits) = levenshtein(alloc, key, row.0) {
            if edits < least {
                least = edits;
                found = Some(row.0);
            }
        }
    }
    found
}
