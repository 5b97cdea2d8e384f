//! The edges of a document: the values of their tables.
ghost use Rattle.std.specs.Prelude.{◌≡◌, ◌≤◌, length, map, codes, IfOk};
ghost use Rattle.toml.specs.View.{table_view, array_view};
ghost use Rattle.ev_config.specs.Keys.{tables_at, tables_of};
ghost use Rattle.ev_config.specs.ConfigPort.{storm_limit, port_of, link_of};
ghost use Rattle.ev_config.specs.ConfigEdge.{tree_of, edge_of, links_of};
ghost use Rattle.ev_config.specs.Config.{edges_of, view_of};

use crate::endpoint::{Endpoint, PortEndpoints};
use crate::schema::{
    AGEING, BUCKETS, CAPACITY, COST, FORWARD_DELAY, HELLO, HOLD, INCARNATION, MAX_AGE,
    NEW_STATIONS, PORT_PRIORITY, PRIORITY, SALT, STATIONS, STORM,
};
use crate::values::{
    address_at, bridge_at, device_at, endpoint_at, flag, number, number_or, tables_at, vni_at,
    vnis_at,
};
use crate::whole::Config;
use arrayvec::ArrayVec;
use bpdu_wire::BridgeId;
use ether_wire::{Addr, Mac, Vni};
use ev_edge::{EdgeConfig, Limits, PortConfig};
use ev_links::DeviceName;
use rstp_state::{PortSettings, Settings};
use std::alloc::{AllocError, Global};
use toml::Table;
use toml::value::Array;

/// Returns the storm limit of a value: none for 0.
fn storm_limit(frames: u64) -> Option<u64>
    ensures { result ≡ storm_limit frames }
{
    if frames == 0 { None } else { Some(frames) }
}

/// Returns the port of a table.
fn port_of(table: &Table) -> PortConfig
    ensures { result ≡ port_of (table_view table.now) }
{
    PortConfig {
        vni: vni_at(table).unwrap_or(Vni::new(0)),
        settings: PortSettings {
            priority: number(table, "priority", PORT_PRIORITY) as u8,
            cost: number(table, "cost", COST) as u32,
            admin_edge: flag(table, "admin_edge", false),
            auto_edge: flag(table, "auto_edge", true),
            point_to_point: flag(table, "point_to_point", true),
        },
        limits: Limits {
            stations: Some(number(table, "stations", STATIONS)),
            new_stations: Some(number(table, "new_stations", NEW_STATIONS)),
            storm: storm_limit(number(table, "storm", STORM)),
        },
    }
}

/// Returns what serves as the cable of a port's table: the endpoints of its link, or its device.
fn link_of(table: &Table) -> PortEndpoints
    ensures { result ≡ link_of (table_view table.now) }
{
    let local: Option<Endpoint> = endpoint_at(table, "local");
    let remote: Option<Endpoint> = endpoint_at(table, "remote");
    let device: Option<DeviceName> = device_at(table);
    PortEndpoints {
        local,
        remote,
        device,
    }
}

/// Returns the ports of these tables.
fn ports_of(tables: &Array) -> ArrayVec<PortConfig, 64>
    requires { length tables.now.items ≤ 64 }
    ensures { result.items ≡ map port_of (tables_of (array_view tables.now)) }
{
    let mut ports = ArrayVec::new();
    for value in tables {
        if let Some(table) = value.as_table() {
            ports.push(port_of(table));
        }
    }
    ports
}

/// Returns the ports of an edge's table.
fn ports_at(table: &Table) -> ArrayVec<PortConfig, 64>
    ensures { result.items
        ≡ map port_of (tables_of (tables_at (codes "port") (table_view table.now))) }
{
    match tables_at(table, "port") {
        Some(tables) => ports_of(tables),
        None => ArrayVec::new(),
    }
}

/// Returns the cables of these tables of ports.
fn links_of(tables: &Array) -> ArrayVec<PortEndpoints, 64>
    requires { length tables.now.items ≤ 64 }
    ensures { result.items ≡ map link_of (tables_of (array_view tables.now)) }
{
    let mut links = ArrayVec::new();
    for value in tables {
        if let Some(table) = value.as_table() {
            let PortEndpoints {
                local,
                remote,
                device,
            } = link_of(table);
            links.push(PortEndpoints {
                local,
                remote,
                device,
            });
        }
    }
    links
}

/// Returns the cables of the ports of an edge's table.
fn links_at(table: &Table) -> ArrayVec<PortEndpoints, 64>
    ensures { result ≡ links_of (table_view table.now) }
{
    match tables_at(table, "port") {
        Some(tables) => links_of(tables),
        None => ArrayVec::new(),
    }
}

/// Returns the identifier and the times of an edge's bridge.
fn tree_of(table: &Table) -> Settings
    ensures { result ≡ tree_of (table_view table.now) }
{
    let priority = number(table, "priority", PRIORITY) as u16;
    let bridge = bridge_at(table).unwrap_or(Mac::new(0));
    Settings {
        identifier: BridgeId::from_parts(priority, bridge.number()),
        hello: number(table, "hello", HELLO) as u16,
        max_age: number(table, "max_age", MAX_AGE) as u16,
        forward_delay: number(table, "forward_delay", FORWARD_DELAY) as u16,
        hold: number(table, "hold", HOLD) as u32,
    }
}

/// Returns a copy of these addresses.
fn copied(addresses: &ArrayVec<Addr, 64>) -> ArrayVec<Addr, 64>
    ensures { result.items ≡ addresses.now.items }
{
    let mut copy = ArrayVec::new();
    let _fits = copy.try_extend_from_slice(addresses.as_slice());
    copy
}

/// Returns the edge of a table, which lists these addresses.
fn edge_of(listed: &ArrayVec<Addr, 64>, table: &Table) -> EdgeConfig
    ensures { result ≡ edge_of listed.now.items (table_view table.now) }
{
    let capacity = number(table, "capacity", CAPACITY);
    EdgeConfig {
        address: address_at(table).unwrap_or(Addr::new(0)),
        incarnation: number(table, "incarnation", INCARNATION) as u32,
        originators: copied(listed),
        vnis: vnis_at(table).unwrap_or(ArrayVec::new()),
        tree: tree_of(table),
        ageing: number(table, "ageing", AGEING),
        capacity: capacity as usize,
        buckets: number_or(capacity, table, "buckets", BUCKETS) as usize,
        salt: number(table, "salt", SALT),
        ports: ports_at(table),
    }
}

/// Returns the configuration of these tables, each edge of which lists these addresses.
pub(crate) fn edges_of(
    alloc: Global,
    listed: &ArrayVec<Addr, 64>,
    tables: &Array,
) -> Result<Config, AllocError>
    requires { length tables.now.items ≤ 64 }
    ensures { IfOk result (λ c. view_of c
        ≡ edges_of listed.now.items (array_view tables.now)) }
{
    let mut edges = Vec::new(alloc);
    let mut links = Vec::new(alloc);
    for value in tables {
        if let Some(table) = value.as_table() {
            edges.push(edge_of(listed, table))?;
            links.push(links_at(table))?;
        }
    }
    Ok(Config { edges, links })
}
