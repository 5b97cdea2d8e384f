//! The messages for a text that is no configuration: the place and the key of each fault, the range
//! that is allowed, and advice.
#![tactic(auto, using(ether_wire::proofs::Appending::with_text_twice, ether_wire::proofs::Appending::with_text_none, crate::proofs::Lines::faults_told, crate::proofs::Lines::text_told))]

ghost use Rattle.std.specs.Prelude.{◌≡◌, ◌++◌, codes, option_map};
ghost use Rattle.std.specs.List.{list_any};
ghost use Rattle.toml.specs.View.{table_view};
ghost use Rattle.ether_wire.specs.Ends.{Puts};
ghost use Rattle.ev_config.specs.Faults.{Port};
ghost use Rattle.ev_config.specs.Inner.Faults.{spot_of, faulty_of, faults_view, row_of};
ghost use Rattle.ev_config.specs.Told.{line_text, spot_text, row_text, is_odd, is_plain, TellsEach, TellsRefusal};
ghost use Rattle.ev_config.specs.Inner.Told.{PutsKey, TellsFault, TellsFaults, line_at};

use crate::advice::{advice_line, found_line};
use crate::allowed::{put_number, put_range, rows_of};
use crate::document_table::DocumentTable;
use crate::faults::{FaultyKey, row_at};
use crate::message_buffer::MessageBuffer;
use crate::schema::Row;
use crate::walk::walk;
use crate::whole::Use;
use ether_wire::{Device, Out};
use std::alloc::Global;
use toml::Table;
use toml::de::Error;

/// Returns the line of an error in a text, from 1.
fn line_of(text: &str, error: &Error) -> u64 {
    let start = match error.span() {
        Some(span) => span.start,
        None => 0,
    };
    line_at(text.as_bytes(), start)
}

/// Returns the line of the octet at a place of a text, from 1.
fn line_at(text: &[u8], place: usize) -> u64
    ensures { result ≡ line_at text.now place }
{
    let (before, _) = text.split_at(place.min(text.len()));
    let mut number = 1;
    for octet in before {
        number += u64::from(*octet == b'\n');
    }
    number
}

/// Returns the message with the line in which a text is no TOML document, and why.
fn syntax_line(text: &str, error: &Error) -> MessageBuffer {
    let mut line = MessageBuffer::new();
    line.put(b"line ");
    line.put_number(line_of(text, error));
    line.put(b": ");
    line.put_shown(error.message());
    line
}

/// Returns the message if there is no memory for more: only the faulty key.
fn plain_line(key: Option<&str>) -> MessageBuffer {
    let mut line = MessageBuffer::new();
    line.put(b"config ");
    line.put_shown(key.unwrap_or("text"));
    line
}

/// Writes a line.
fn put_line<N: Out>(notes: &mut N, line: &MessageBuffer) -> Result<(), Device>
    ensures { Puts (N.end notes.old) (N.end notes.new) (line_text line.now.octets.items) result }
{
    notes.put(line.octets())?;
    notes.put(b"\n")
}

/// Writes the place of a port: `edge 2, port 3: `.
fn put_port<N: Out>(notes: &mut N, edge: usize, port: usize) -> Result<(), Device>
    ensures { Puts (N.end notes.old) (N.end notes.new) (spot_text (Port edge port)) result }
{
    put_number(notes, b"edge ", edge)?;
    put_number(notes, b", port ", port)?;
    notes.put(b": ")
}

/// Writes where a table is: `edge 2: `.
fn put_place<N: Out>(notes: &mut N, place: DocumentTable<'_>) -> Result<(), Device>
    ensures { Puts (N.end notes.old) (N.end notes.new) (spot_text (spot_of place.entry)) result }
{
    match place {
        DocumentTable::File(_) => Ok(()),
        DocumentTable::Edge(edge, _) => {
            put_number(notes, b"edge ", edge)?;
            notes.put(b": ")
        }
        DocumentTable::Port(edge, port, _) => put_port(notes, edge, port),
        DocumentTable::Peer(peer, _) => {
            put_number(notes, b"peer ", peer)?;
            notes.put(b": ")
        }
    }
}

/// Returns `true` if an octet isn't a printable character of ASCII.
fn is_odd(octet: u8) -> bool
    ensures { result ≡ is_odd octet }
{
    octet < 32 || 126 < octet
}

/// Returns `true` if one of these octets isn't a printable character of ASCII.
fn has_odd(octets: &[u8]) -> bool
    ensures { result ≡ list_any is_odd octets.now }
{
    for octet in octets {
        if is_odd(*octet) {
            return true;
        }
    }
    false
}

/// Returns `true` if a key has at most 100 octets, all of them printable.
fn is_plain(key: &[u8]) -> bool
    ensures { result ≡ is_plain key.now }
{
    key.len() < 101 && !has_odd(key)
}

/// Returns the part of a key that fits into a line, with a question mark for each character that
/// could control a terminal.
fn shown_line(key: &str) -> MessageBuffer {
    let mut line = MessageBuffer::new();
    line.put_shown(key);
    line
}

/// Writes a key, as it is if it is plain.
fn put_key<N: Out>(notes: &mut N, key: &str) -> Result<(), Device>
    ensures { PutsKey key.now (N.end notes.old) (N.end notes.new) result }
{
    if is_plain(key.as_bytes()) {
        notes.put(key.as_bytes())
    } else {
        notes.put(shown_line(key).octets())
    }
}

/// Writes what was found, the range that a row allows, and advice.
fn put_advice<N: Out>(
    notes: &mut N,
    found: &MessageBuffer,
    row: Option<Row>,
    advice: &MessageBuffer,
) -> Result<(), Device>
    ensures { Puts (N.end notes.old) (N.end notes.new)
        (line_text (found.now.octets.items ++ codes ", " ++ row_text (option_map row_of row)
        ++ advice.now.octets.items)) result }
{
    notes.put(found.octets())?;
    notes.put(b", ")?;
    put_range(notes, row)?;
    put_line(notes, advice)
}

/// Writes the line of a fault: its place, its key, what was found, and advice.
fn put_fault<N: Out>(
    notes: &mut N,
    alloc: Global,
    wanted: Use,
    document: &Table,
    fault: FaultyKey<'_>,
) -> Result<(), Device>
    ensures { TellsFault wanted (faulty_of fault.entry) (N.end notes.old) (N.end notes.new) result }
{
    let FaultyKey { place, key } = fault;
    let row = row_at(rows_of(wanted, place), key);
    let found = found_line(wanted, document, place, key);
    let advice = advice_line(alloc, wanted, place, key);
    put_place(notes, place)?;
    put_key(notes, key)?;
    put_advice(notes, &found, row, &advice)
}

/// Writes a line for each of these faults.
fn put_lines<N: Out>(
    notes: &mut N,
    alloc: Global,
    wanted: Use,
    document: &Table,
    faults: &[FaultyKey<'_>],
) -> Result<(), Device>
    ensures { TellsEach wanted (faults_view faults.now) (N.end notes.old) (N.end notes.new) result }
{
    for fault in faults {
        put_fault(notes, alloc, wanted, document, *fault)?;
    }
    Ok(())
}

/// Prints each fault of a document, one per line; if memory is refused, only the first key.
fn put_faults<N: Out>(
    notes: &mut N,
    alloc: Global,
    wanted: Use,
    document: &Table,
    key: Option<&str>,
) -> Result<(), Device>
    ensures { TellsFaults wanted (table_view document.now) (N.end notes.old) (N.end notes.new)
        result }
{
    match walk(alloc, wanted, document) {
        Ok(found) => put_lines(notes, alloc, wanted, document, found.faults.as_slice()),
        Err(_) => put_line(notes, &plain_line(key)),
    }
}

/// Prints each fault of a text that is no configuration, possibly none for this use, one per line.
/// If memory is refused, it prints only the first faulty key.
///
/// # Errors
///
/// `Device` exactly if a note fails.
pub fn put_refusal<N: Out>(
    notes: &mut N,
    alloc: Global,
    wanted: Use,
    text: &str,
    key: Option<&str>,
) -> Result<(), Device>
    ensures { TellsRefusal wanted text.now (N.end notes.old) (N.end notes.new) result }
{
    match toml::table_from_str(alloc, text) {
        Ok(document) => put_faults(notes, alloc, wanted, &document, key),
        Err(error) if error.is_memory() => put_line(notes, &plain_line(key)),
        Err(error) => put_line(notes, &syntax_line(text, &error)),
    }
}
