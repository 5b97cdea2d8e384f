//! Connections whose octets were written by hand from the layout of a record, and readers and
//! writers that fail.
mod announced;
mod received;
mod sent;
mod sessions;

use route_wire::{BAD_KIND, Update, Whole, read_one, whole_of};

/// The flood list of VNI 5001, advertised by 10.0.0.1 with counter 1, in version 3.
const FLOOD: [u8; 44] = [
    0x45, 0x56, 0x03, 0x01, 0x00, 0x26, 0x0a, 0x00, 0x00, 0x01, 0x00, 0x00, 0x00, 0x00, 0x00, 0x00,
    0x00, 0x00, 0x00, 0x00, 0x00, 0x01, 0x00, 0x13, 0x89, 0x03, 0x11, 0x00, 0x01, 0x0a, 0x00, 0x00,
    0x01, 0x00, 0x01, 0x00, 0x00, 0x00, 0x00, 0x20, 0x0a, 0x00, 0x00, 0x01,
];

/// The place of its kind: 2 withdraws.
const KIND: usize = 3;
/// The place of the last octet of its counter.
const COUNTER: usize = 21;

/// Returns the record with another octet at a place.
fn with(mut record: [u8; 44], place: usize, octet: u8) -> [u8; 44] {
    if let Some(old) = record.get_mut(place) {
        *old = octet;
    }
    record
}

/// The edge 10.0.0.1.
const EDGE: u32 = 0x0a00_0001;

/// Returns the update that a record spells.
fn update(record: &[u8; 44]) -> Result<Update, u8> {
    match whole_of(record) {
        Whole::Length(44) => read_one(record),
        _ => Err(BAD_KIND),
    }
}

/// Returns the same record for the edge 10.0.0.2.
fn of_another() -> [u8; 44] {
    with(with(with(FLOOD, 9, 2), 32, 2), 43, 2)
}

/// Returns the withdrawal with counter 2.
fn withdrawn() -> [u8; 44] {
    with(with(FLOOD, KIND, 2), COUNTER, 2)
}

/// Returns `true` if the octets are these records.
fn are(octets: &[u8], records: &[[u8; 44]]) -> bool {
    octets.len() == 44 * records.len()
        && records.iter().enumerate().all(|(place, record)| octets[44 * place..44 * (place + 1)]
            == record[..])
}
