//! The faults of a table, by its rows of the schema.
ghost use Rattle.std.specs.Prelude.{◌≡◌, ◌≤◌, map, option_map};
ghost use Rattle.toml.specs.View.{view, table_view};
ghost use Rattle.ev_config.specs.Keys.{vni_in, keys_of};
ghost use Rattle.ev_config.specs.Faults.{is_known, is_right, is_needed, is_faulty, fault_if, rows_faults, find_row, unknown, table_faults};
ghost use Rattle.ev_config.specs.Inner.Faults.{spot_of, Adds, row_of, context_view};

use crate::document_table::{Context, DocumentTable};
use crate::schema::{KeyKind, Row};
use crate::values::{
    device_in, endpoint_in, has_vni, number_in, path_in, tables_beside, tables_in, value_at,
    vni_in, vnis_in,
};
use arrayvec::ArrayVec;
use ether_wire::Vni;
use std::alloc::AllocError;
use toml::{Table, Value};

/// A faulty key of a document.
#[derive(Clone, Copy, Drop)]
pub(crate) struct FaultyKey<'a> {
    /// The place of its table.
    pub(crate) place: DocumentTable<'a>,
    /// The key.
    pub(crate) key: &'a str,
}

/// Returns `true` if a value is a VNI, one of these if they are known.
fn is_known(known: &Option<ArrayVec<Vni, 64>>, value: &Value) -> bool
    ensures { result ≡ is_known (option_map (λ v. v.items) known.now) (vni_in (view value.now)) }
{
    match vni_in(value) {
        Some(vni) => match known {
            Some(vnis) => has_vni(vnis.as_slice(), vni),
            None => true,
        },
        None => false,
    }
}

/// Returns `true` if a value is one of this kind.
fn is_right(context: &Context<'_>, kind: KeyKind, value: &Value) -> bool
    ensures { result ≡ is_right (context_view context.now) kind (view value.now) }
{
    match kind {
        KeyKind::Address => context.names.is_new_address(value),
        KeyKind::Bridge => context.names.is_new_bridge(value),
        KeyKind::Vnis => vnis_in(value).is_some(),
        KeyKind::Vni => is_known(context.vnis, value),
        KeyKind::Number(range) => number_in(value, range).is_some(),
        KeyKind::Flag(_) => value.as_bool().is_some(),
        KeyKind::Endpoint => !context.has_device && endpoint_in(value).is_some(),
        KeyKind::Device => context.for_run && device_in(value).is_some(),
        KeyKind::Path => path_in(value).is_some(),
        KeyKind::Tables => tables_in(value).is_some(),
        KeyKind::Peers => tables_beside(value, context.edges).is_some(),
    }
}

/// Returns `true` if a key of this kind may not be missing.
fn is_needed(context: &Context<'_>, kind: KeyKind) -> bool
    ensures { result ≡ is_needed (context_view context.now) kind }
{
    match kind {
        KeyKind::Number(_) | KeyKind::Flag(_) | KeyKind::Peers | KeyKind::Device => false,
        KeyKind::Endpoint => context.for_run && !context.has_device,
        KeyKind::Address
        | KeyKind::Bridge
        | KeyKind::Vnis
        | KeyKind::Vni
        | KeyKind::Path
        | KeyKind::Tables => true,
    }
}

/// Returns `true` if the key of this row is faulty.
fn is_faulty(context: &Context<'_>, row: Row, table: &Table) -> bool
    ensures { result ≡ is_faulty (context_view context.now) (row_of row) (table_view table.now) }
{
    let Row(key, kind, _) = row;
    match value_at(table, key) {
        Some(value) => !is_right(context, kind, value),
        None => is_needed(context, kind),
    }
}

/// Adds a fault, if there is one.
pub(crate) fn add_if<'a>(
    is_fault: bool,
    faults: &mut Vec<FaultyKey<'a>>,
    place: DocumentTable<'a>,
    key: &'a str,
) -> Result<(), AllocError>
    ensures { Adds (fault_if is_fault (spot_of place.entry) key.now) faults.old.items
        faults.new.items result }
{
    if is_fault {
        faults.push(FaultyKey { place, key })?;
    }
    Ok(())
}

/// Collects the faulty keys of these rows.
fn add_rows<'a>(
    faults: &mut Vec<FaultyKey<'a>>,
    context: &Context<'_>,
    place: DocumentTable<'a>,
    rows: &[Row],
    table: &'a Table,
) -> Result<(), AllocError>
    ensures { Adds (rows_faults (context_view context.now) (spot_of place.entry)
        (map row_of rows.now) (table_view table.now)) faults.old.items faults.new.items result }
{
    for row in rows {
        add_if(is_faulty(context, *row, table), faults, place, row.0)?;
    }
    Ok(())
}

/// Returns the row with this key, if there is one.
pub(crate) fn row_at(rows: &[Row], key: &str) -> Option<Row>
    ensures { option_map row_of result ≡ find_row (map row_of rows.now) key.now }
{
    for row in rows {
        if row.0 == key {
            return Some(*row);
        }
    }
    None
}

/// Collects the keys of a table that no row has.
fn add_unknown<'a>(
    faults: &mut Vec<FaultyKey<'a>>,
    place: DocumentTable<'a>,
    rows: &[Row],
    table: &'a Table,
) -> Result<(), AllocError>
    ensures { Adds (unknown (spot_of place.entry) (map row_of rows.now)
        (keys_of (table_view table.now))) faults.old.items faults.new.items result }
{
    for key in table.keys() {
        add_if(
            row_at(rows, key.as_str()).is_none(),
            faults,
            place,
            key.as_str(),
        )?;
    }
    Ok(())
}

/// Collects the faults of a table with these rows.
pub(crate) fn add_table<'a>(
    faults: &mut Vec<FaultyKey<'a>>,
    context: &Context<'_>,
    place: DocumentTable<'a>,
    rows: &[Row],
    table: &'a Table,
) -> Result<(), AllocError>
    ensures { Adds (table_faults (context_view context.now) (spot_of place.entry)
        (map row_of rows.now) (table_view table.now)) faults.old.items faults.new.items result }
{
    add_rows(faults, context, place, rows, table)?;
    add_unknown(faults, place, rows, table)
}
