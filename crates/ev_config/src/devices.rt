//! The devices of the ports of a document: each device is one port's.
ghost use Rattle.std.specs.Prelude.{◌≡◌, ◌≤◌, length, IfSome, Some, []};
ghost use Rattle.toml.specs.View.{table_view, array_view};
ghost use Rattle.ev_config.specs.Faults.{named_port, named_ports, named_of_edge, named_of_edges, is_named, repeated, device_faults};
ghost use Rattle.ev_config.specs.Inner.Faults.{Adds, Finds, named_view, items_at};

use crate::document_table::DocumentTable;
use crate::faults::{FaultyKey, add_if};
use crate::values::{device_name_at, tables_at};
use std::alloc::{AllocError, Global};
use toml::Table;
use toml::value::Array;

/// A port that has a device.
#[derive(Clone, Copy, Drop)]
pub(crate) struct NamedPort<'a> {
    /// The place of its table.
    pub(crate) place: DocumentTable<'a>,
    /// The name of its device.
    pub(crate) name: &'a str,
}

/// Collects a port of an edge, if its table spells the name of a device.
fn find_port<'a>(
    found: &mut Vec<NamedPort<'a>>,
    edge: usize,
    port: usize,
    table: &'a Table,
) -> Result<(), AllocError>
    ensures { Finds (named_port edge port (Some (table_view table.now))) found.old.items
        found.new.items result }
{
    if let Some(name) = device_name_at(table) {
        let place = DocumentTable::Port(edge, port, table);
        found.push(NamedPort { place, name })?;
    }
    Ok(())
}

/// Collects those of these ports of an edge whose tables spell the name of a device.
fn find_ports<'a>(
    found: &mut Vec<NamedPort<'a>>,
    edge: usize,
    tables: &'a Array,
) -> Result<(), AllocError>
    requires { length tables.now.items ≤ 64 }
    ensures { Finds (named_ports edge 1 (array_view tables.now)) found.old.items found.new.items
        result }
{
    let mut port = 1usize;
    for value in tables {
        if let Some(table) = value.as_table() {
            find_port(found, edge, port, table)?;
        }
        port += 1;
    }
    Ok(())
}

/// Collects the ports of an edge whose tables spell the name of a device.
fn find_edge<'a>(
    found: &mut Vec<NamedPort<'a>>,
    edge: usize,
    table: &'a Table,
) -> Result<(), AllocError>
    ensures { Finds (named_of_edge edge (Some (table_view table.now))) found.old.items
        found.new.items result }
{
    match tables_at(table, "port") {
        Some(array) => find_ports(found, edge, array),
        None => Ok(()),
    }
}

/// Collects the ports of these edges whose tables spell the name of a device.
fn find_edges<'a>(found: &mut Vec<NamedPort<'a>>, tables: &'a Array) -> Result<(), AllocError>
    requires { length tables.now.items ≤ 64 }
    ensures { Finds (named_of_edges 1 (array_view tables.now)) found.old.items found.new.items
        result }
{
    let mut edge = 1usize;
    for value in tables {
        if let Some(table) = value.as_table() {
            find_edge(found, edge, table)?;
        }
        edge += 1;
    }
    Ok(())
}

/// Returns `true` if one of these ports has a device of this name.
fn is_named(ports: &[NamedPort<'_>], name: &str) -> bool
    ensures { result ≡ is_named (named_view ports.now) name.now }
{
    for port in ports {
        if port.name == name {
            return true;
        }
    }
    false
}

/// Collects the fault of each of these ports whose device a port before it has.
fn add_repeated<'a>(
    faults: &mut Vec<FaultyKey<'a>>,
    ports: &[NamedPort<'a>],
) -> Result<(), AllocError>
    ensures { Adds (repeated [] (named_view ports.now)) faults.old.items faults.new.items result }
{
    for (place, port) in ports.iter().enumerate() {
        let (before, _) = ports.split_at(place);
        add_if(is_named(before, port.name), faults, port.place, "device")?;
    }
    Ok(())
}

/// Collects the faults of the devices of these edges, if there are any.
fn add_twins<'a>(
    alloc: Global,
    faults: &mut Vec<FaultyKey<'a>>,
    tables: &'a Array,
) -> Result<(), AllocError>
    requires { length tables.now.items ≤ 64 }
    ensures { Adds (repeated [] (named_of_edges 1 (array_view tables.now))) faults.old.items
        faults.new.items result }
{
    let mut ports = Vec::new(alloc);
    find_edges(&mut ports, tables)?;
    add_repeated(faults, ports.as_slice())
}

/// Collects the faults of the devices that a port before has, in a run.
pub(crate) fn add_devices<'a>(
    alloc: Global,
    faults: &mut Vec<FaultyKey<'a>>,
    for_run: bool,
    tables: Option<&'a Array>,
) -> Result<(), AllocError>
    requires { IfSome tables (λ a. length a.now.items ≤ 64) }
    ensures { Adds (device_faults for_run (items_at tables.entry)) faults.old.items
        faults.new.items result }
{
    match tables {
        Some(array) if for_run => add_twins(alloc, faults, array),
        _ => Ok(()),
    }
}
