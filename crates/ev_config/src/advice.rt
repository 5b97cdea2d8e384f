//! The advice about a faulty key: its value, why it is wrong, and which key was meant. Its text is
//! tested, not proved.
use crate::allowed::{rows_of, words_of};
use crate::document_table::DocumentTable;
use crate::hints::{meant, put_hint};
use crate::message_buffer::MessageBuffer;
use crate::schema::{MAX_AGE, Range};
use crate::values::{addr_in, bridge_in, device_at, device_in, tables_at, vni_in};
use crate::whole::Use;
use ether_wire::Vni;
use ev_links::DeviceName;
use std::alloc::Global;
use toml::value::Array;
use toml::{Table, Value};

/// Writes the value of a key.
fn put_value(line: &mut MessageBuffer, value: &Value) {
    match value {
        Value::String(text) => {
            line.put(b"'");
            line.put_shown(text.as_str());
            line.put(b"'");
        }
        Value::Integer(number) => {
            line.put(if *number < 0 { b"-" } else { b"" });
            line.put_number(number.unsigned_abs());
        }
        Value::Boolean(flag) => line.put(if *flag { b"true" } else { b"false" }),
        Value::Float(_) => line.put(b"a float"),
        Value::Datetime(_) => line.put(b"a date"),
        Value::Array(_) => line.put(b"an array"),
        Value::Table(_) => line.put(b"a table"),
    }
}

/// Writes the number of a table of this name: `edge 2`.
fn put_place(line: &mut MessageBuffer, name: &[u8], number: usize) {
    line.put(name);
    line.put(b" ");
    line.put_number(number as u64);
}

/// Returns the table of a place.
fn table_of(place: DocumentTable<'_>) -> &Table {
    match place {
        DocumentTable::File(table)
        | DocumentTable::Edge(_, table)
        | DocumentTable::Port(_, _, table)
        | DocumentTable::Peer(_, table) => table,
    }
}

/// Writes the message for a missing key. Of the optional keys only `max_age` can be faulty when it
/// is missing.
fn put_absent(line: &mut MessageBuffer, key: &str) {
    if key == "max_age" {
        let Range(_, _, _, default) = MAX_AGE;
        line.put(b" is ");
        line.put_number(default);
        line.put(b" where it is left out");
    } else {
        line.put(b" is missing");
    }
}

/// Returns `true` if the value is valid and another table has an equal one at a key.
fn is_twin(other: &Value, key: &str, value: &Value) -> bool {
    let Some(table) = other.as_table() else {
        return false;
    };
    let Some(found) = table.get(key) else {
        return false;
    };
    match key {
        "address" => addr_in(value).is_some() && addr_in(found) == addr_in(value),
        "bridge" => bridge_in(value).is_some() && bridge_in(found) == bridge_in(value),
        _ => false,
    }
}

/// Returns the number of the first table of an array that has this value at a key, from 1.
fn twin_among(
    document: &Table,
    name: &str,
    before: usize,
    key: &str,
    value: &Value,
) -> Option<usize> {
    let tables = tables_at(document, name)?;
    for (at, other) in tables.iter().enumerate().take(before) {
        if is_twin(other, key, value) {
            return Some(at.saturating_add(1));
        }
    }
    None
}

/// Returns the first edge or peer before the place that has the value at a key: the key of its
/// array, and its number from 1.
fn twin_of(
    document: &Table,
    place: DocumentTable<'_>,
    key: &str,
    value: &Value,
) -> Option<(&'static [u8], usize)> {
    let (edges, peers) = match place {
        DocumentTable::Edge(edge, _) => (edge.saturating_sub(1), 0),
        DocumentTable::Peer(peer, _) => (usize::MAX, peer.saturating_sub(1)),
        DocumentTable::File(_) | DocumentTable::Port(..) => return None,
    };
    match twin_among(document, "edge", edges, key, value) {
        Some(number) => Some((b"edge", number)),
        None => Some((b"peer", twin_among(document, "peer", peers, key, value)?)),
    }
}

/// Returns the number of the first port of an edge that has this device, from 1.
fn port_with(edge: &Value, name: DeviceName) -> Option<usize> {
    let ports = tables_at(edge.as_table()?, "port")?;
    for (at, port) in ports.iter().enumerate() {
        if device_at(port.as_table()?) == Some(name) {
            return Some(at.saturating_add(1));
        }
    }
    None
}

/// Returns the first port that has this device: the number of its edge and its own, from 1.
fn owner_of(document: &Table, name: DeviceName) -> Option<(usize, usize)> {
    let edges = tables_at(document, "edge")?;
    for (at, edge) in edges.iter().enumerate() {
        if let Some(port) = port_with(edge, name) {
            return Some((at.saturating_add(1), port));
        }
    }
    None
}

/// Returns `true` if a key names the device of a port of a run.
fn has_owner(wanted: Use, place: DocumentTable<'_>, key: &str) -> bool {
    match place {
        DocumentTable::Port(..) => wanted != Use::Any && key == "device",
        _ => false,
    }
}

/// Writes which port before has the device of a port of a run: `, which edge 1, port 2 has`. A
/// right name of a device is only faulty there if one does.
fn put_owner(line: &mut MessageBuffer, document: &Table, value: &Value) {
    let Some(name) = device_in(value) else {
        return;
    };
    if let Some((edge, port)) = owner_of(document, name) {
        line.put(b", which ");
        put_place(line, b"edge", edge);
        put_place(line, b", port", port);
        line.put(b" has");
    }
}

/// Writes why a table is wrong, if that is known.
fn put_table_reason(line: &mut MessageBuffer, place: DocumentTable<'_>, key: &str) {
    match (place, key) {
        (DocumentTable::File(_), "edge") => line.put(b", as [edge] writes one"),
        (DocumentTable::File(_), "peer") => line.put(b", as [peer] writes one"),
        (DocumentTable::Edge(..), "port") => line.put(b", as [edge.port] writes one"),
        _ => (),
    }
}

/// Returns `true` if an array has this VNI before the place `at`.
fn is_before(array: &Array, at: usize, vni: Vni) -> bool {
    for other in array.iter().take(at) {
        if vni_in(other) == Some(vni) {
            return true;
        }
    }
    false
}

/// Returns the first element of an array that is no VNI, or a repeated one, with its place, from 1.
fn odd_element(array: &Array) -> Option<(usize, &Value)> {
    for (at, value) in array.iter().enumerate() {
        match vni_in(value) {
            Some(vni) if !is_before(array, at, vni) => (),
            _ => return Some((at.saturating_add(1), value)),
        }
    }
    None
}

/// Writes which element of an array of VNIs is wrong: `, whose element 1 is '5001'`.
fn put_array_reason(line: &mut MessageBuffer, array: &Array) {
    if let Some((number, value)) = odd_element(array) {
        put_place(line, b", whose element", number);
        line.put(b" is ");
        put_value(line, value);
    }
}

/// Writes why a value is wrong, if that is known.
fn put_reason(
    line: &mut MessageBuffer,
    wanted: Use,
    document: &Table,
    place: DocumentTable<'_>,
    key: &str,
    value: &Value,
) {
    match value {
        Value::String(_) if has_owner(wanted, place, key) => put_owner(line, document, value),
        Value::String(text) => match twin_of(document, place, key, value) {
            Some((name, number)) => {
                line.put(b", which ");
                put_place(line, name, number);
                line.put(b" has");
            }
            None => put_hint(line, key, text.as_str()),
        },
        Value::Table(_) => put_table_reason(line, place, key),
        Value::Array(array) if key == "vnis" => put_array_reason(line, array),
        _ => (),
    }
}

/// Returns the value of a faulty key, and why that is wrong, if it is known.
pub(crate) fn found_line(
    wanted: Use,
    document: &Table,
    place: DocumentTable<'_>,
    key: &str,
) -> MessageBuffer {
    let mut line = MessageBuffer::new();
    match table_of(place).get(key) {
        Some(value) => {
            line.put(b" is ");
            put_value(&mut line, value);
            put_reason(&mut line, wanted, document, place, key, value);
        }
        None => put_absent(&mut line, key),
    }
    line
}

/// Returns the allowed values of a key, or what follows their range, and the key that was meant by
/// an unknown one, if there is one.
pub(crate) fn advice_line(
    alloc: Global,
    wanted: Use,
    place: DocumentTable<'_>,
    key: &str,
) -> MessageBuffer {
    let mut line = MessageBuffer::new();
    line.put(words_of(wanted, place, key).as_bytes());
    match meant(alloc, rows_of(wanted, place), key) {
        Some(known) if known != key => {
            line.put(b": did you mean ");
            line.put(known.as_bytes());
            line.put(b"?");
        }
        _ => (),
    }
    line
}
