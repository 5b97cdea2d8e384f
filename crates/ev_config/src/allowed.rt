//! The allowed values of a key, by its row of the schema.
#![tactic(auto, using(ether_wire::proofs::Appending::with_text_twice, ether_wire::proofs::Appending::with_text_none))]

ghost use Rattle.std.specs.Prelude.{◌≡◌, ◌++◌, map, option_map};
ghost use Rattle.ether_wire.specs.Ends.{Puts};
ghost use Rattle.ev_config.specs.Faults.{rows_at};
ghost use Rattle.ev_config.specs.Told.{numbered, steps_text, span_text, kind_text, row_text};
ghost use Rattle.ev_config.specs.Inner.Faults.{spot_of, row_of};

use crate::document_table::DocumentTable;
use crate::faults::row_at;
use crate::schema::{EDGE, KeyKind, PEER, PORT, Range, Row, SERVED, VNI};
use crate::values::has_device;
use crate::walk::file_rows;
use crate::whole::Use;
use ether_wire::{Device, Out, put_decimal};

/// Returns the rows of a table.
pub(crate) fn rows_of(wanted: Use, place: DocumentTable<'_>) -> &'static [Row]
    ensures { map row_of result.now ≡ rows_at wanted (spot_of place.entry) }
{
    match place {
        DocumentTable::File(_) => file_rows(wanted),
        DocumentTable::Edge(..) => &EDGE,
        DocumentTable::Port(..) => &PORT,
        DocumentTable::Peer(..) => &PEER,
    }
}

/// Writes a name and a number: `edge 2`.
pub(crate) fn put_number<N: Out>(notes: &mut N, name: &[u8], number: usize) -> Result<(), Device>
    ensures { Puts (N.end notes.old) (N.end notes.new) (numbered name.now number) result }
{
    notes.put(name)?;
    put_decimal(notes, number as u64)
}

/// Writes the steps of a range, if it has any: ` in steps of 16`.
fn put_steps<N: Out>(notes: &mut N, step: u64) -> Result<(), Device>
    ensures { Puts (N.end notes.old) (N.end notes.new) (steps_text step) result }
{
    if step == 0 {
        return Ok(());
    }
    put_number(notes, b" in steps of ", step as usize)
}

/// Writes a range: `0 to 240 in steps of 16`.
fn put_span<N: Out>(notes: &mut N, range: Range) -> Result<(), Device>
    ensures { Puts (N.end notes.old) (N.end notes.new) (span_text range) result }
{
    put_decimal(notes, range.0)?;
    notes.put(b" to ")?;
    put_decimal(notes, range.1)?;
    put_steps(notes, range.2)
}

/// Writes words and a range.
fn put_lead<N: Out>(notes: &mut N, words: &[u8], range: Range) -> Result<(), Device>
    ensures { Puts (N.end notes.old) (N.end notes.new) (words.now ++ span_text range) result }
{
    notes.put(words)?;
    put_span(notes, range)
}

/// Writes the values that a kind allows, if that is a range.
fn put_kind<N: Out>(notes: &mut N, kind: KeyKind) -> Result<(), Device>
    ensures { Puts (N.end notes.old) (N.end notes.new) (kind_text kind) result }
{
    match kind {
        KeyKind::Number(range) => put_lead(notes, b"allowed are ", range),
        KeyKind::Vnis => put_lead(notes, b"allowed are 1 to 64 different numbers, ", VNI),
        _ => Ok(()),
    }
}

/// Writes the range that a row allows, if it has one.
pub(crate) fn put_range<N: Out>(notes: &mut N, row: Option<Row>) -> Result<(), Device>
    ensures { Puts (N.end notes.old) (N.end notes.new) (row_text (option_map row_of row)) result }
{
    match row {
        Some(Row(_, kind, _)) => put_kind(notes, kind),
        None => Ok(()),
    }
}

/// Returns the message for a key that no row of the table has.
fn unknown(wanted: Use, place: DocumentTable<'_>, key: &str) -> &'static str {
    match place {
        DocumentTable::File(_) if wanted != Use::Serve && row_at(&SERVED, key).is_some() => {
            "which is a key of what `serve` runs alone"
        }
        DocumentTable::File(_) => "which is no key of the file",
        DocumentTable::Edge(..) => "which is no key of an edge",
        DocumentTable::Port(..) => "which is no key of a port",
        DocumentTable::Peer(..) => "which is no key of a peer",
    }
}

/// Returns the message for a key of this kind that no value makes right: a device where nothing
/// runs, or an endpoint of a port that has a device.
fn excluded(wanted: Use, place: DocumentTable<'_>, kind: KeyKind) -> Option<&'static str> {
    match (kind, place) {
        (KeyKind::Device, _) if wanted == Use::Any => Some(
            "which is a key of what `run` and `serve` run alone: \
use `check --run` or `check --serve`",
        ),
        (KeyKind::Endpoint, DocumentTable::Port(_, _, table)) if has_device(table) => {
            Some(
                "which no port with `device` has: a port has either `device`, or `local` and `remote`",
            )
        }
        _ => None,
    }
}

/// Returns the allowed values of a key, or what follows their range.
pub(crate) fn words_of(wanted: Use, place: DocumentTable<'_>, key: &str) -> &'static str {
    match row_at(rows_of(wanted, place), key) {
        Some(Row(_, kind, words)) => excluded(wanted, place, kind).unwrap_or(words),
        None => unknown(wanted, place, key),
    }
}
