//! The faults of a document: one walk over its tables.
#![tactic(auto, using(crate::proofs::Walking::items_more, crate::proofs::Walking::count_of_view))]

ghost use Rattle.std.specs.Prelude.{◌≡◌, ◌+◌, ◌≤◌, map, length, codes, Some, IfOk, IfSome, OnOk};
ghost use Rattle.toml.specs.View.{table_view, array_view};
ghost use Rattle.ev_config.specs.Keys.{times_fit, count_of};
ghost use Rattle.ev_config.specs.Faults.{times_in, is_odd, port_faults, ports_faults, edge_faults_by, edge_faults, edges_faults, peer_faults, peers_faults, after_all, rows_for, is_run, own_faults, peers_beside, faults_in, names_in};
ghost use Rattle.ev_config.specs.Inner.Faults.{faults_view, Adds, row_of, names_view, context_view, items_at};

use crate::devices::add_devices;
use crate::document_table::{Context, DocumentTable};
use crate::faults::{FaultyKey, add_if, add_table};
use crate::schema::{EDGE, FILE, FORWARD_DELAY, HELLO, MAX_AGE, PEER, PORT, Row, SERVED};
use crate::seen_names::SeenNames;
use crate::values::{has_device, known_number, tables_at, tables_beside, value_at, vnis_at};
use crate::whole::Use;
use std::alloc::{AllocError, Global};
use toml::Table;
use toml::value::Array;

/// Returns `true` if times fit together (IEEE 802.1D-2004, section 17.14).
fn times_fit(hello: u64, max_age: u64, forward_delay: u64) -> bool
    requires hello { hello ≤ 2 }
    requires forward_delay { forward_delay ≤ 30 }
    ensures { result ≡ times_fit hello max_age forward_delay }
{
    max_age <= 2 * forward_delay.saturating_sub(1) && 2 * (hello + 1) <= max_age
}

/// Returns whether the times of an edge fit together, if each is right.
fn times_in(table: &Table) -> Option<bool>
    ensures { result ≡ times_in (table_view table.now) }
{
    let hello = known_number(table, "hello", HELLO)?;
    let max_age = known_number(table, "max_age", MAX_AGE)?;
    let forward_delay = known_number(table, "forward_delay", FORWARD_DELAY)?;
    Some(times_fit(hello, max_age, forward_delay))
}

/// Returns `true` if the times of an edge are right and don't fit together.
fn has_odd_times(table: &Table) -> bool
    ensures { result ≡ is_odd (times_in (table_view table.now)) }
{
    match times_in(table) {
        Some(fit) => !fit,
        None => false,
    }
}

/// Collects the faults of a port of an edge.
fn add_port<'a>(
    faults: &mut Vec<FaultyKey<'a>>,
    context: &Context<'_>,
    edge: usize,
    port: usize,
    table: &'a Table,
) -> Result<(), AllocError>
    ensures { Adds (port_faults (context_view context.now) edge port (Some (table_view table.now)))
        faults.old.items faults.new.items result }
{
    let context = Context {
        for_run: context.for_run,
        names: context.names,
        vnis: context.vnis,
        edges: context.edges,
        has_device: has_device(table),
    };
    add_table(
        faults,
        &context,
        DocumentTable::Port(edge, port, table),
        &PORT,
        table,
    )
}

/// Collects the faults of these ports of an edge.
fn add_ports<'a>(
    faults: &mut Vec<FaultyKey<'a>>,
    context: &Context<'_>,
    edge: usize,
    tables: &'a Array,
) -> Result<(), AllocError>
    requires { length tables.now.items ≤ 64 }
    ensures { Adds (ports_faults (context_view context.now) edge 1 (array_view tables.now))
        faults.old.items faults.new.items result }
{
    let mut port = 1usize;
    for value in tables {
        if let Some(table) = value.as_table() {
            add_port(faults, context, edge, port, table)?;
        }
        port += 1;
    }
    Ok(())
}

/// Collects the faults of these ports of an edge, if there are any.
fn add_ports_at<'a>(
    faults: &mut Vec<FaultyKey<'a>>,
    context: &Context<'_>,
    edge: usize,
    tables: Option<&'a Array>,
) -> Result<(), AllocError>
    requires { IfSome tables (λ a. length a.now.items ≤ 64) }
    ensures { Adds (ports_faults (context_view context.now) edge 1 (items_at tables.entry))
        faults.old.items faults.new.items result }
{
    match tables {
        Some(array) => add_ports(faults, context, edge, array),
        None => Ok(()),
    }
}

/// Collects the faults of an edge, under these conditions.
fn add_edge_by<'a>(
    faults: &mut Vec<FaultyKey<'a>>,
    context: &Context<'_>,
    edge: usize,
    table: &'a Table,
) -> Result<(), AllocError>
    ensures { Adds (edge_faults_by (context_view context.now) edge (table_view table.now))
        faults.old.items faults.new.items result }
{
    let place = DocumentTable::Edge(edge, table);
    add_table(faults, context, place, &EDGE, table)?;
    add_if(has_odd_times(table), faults, place, "max_age")?;
    add_ports_at(faults, context, edge, tables_at(table, "port"))
}

/// Collects the faults of an edge, given the names of the edges before it.
fn add_edge<'a>(
    faults: &mut Vec<FaultyKey<'a>>,
    for_run: bool,
    names: &SeenNames,
    edge: usize,
    table: &'a Table,
) -> Result<(), AllocError>
    ensures { Adds (edge_faults for_run (names_view names.now) edge (Some (table_view table.now)))
        faults.old.items faults.new.items result }
{
    let vnis = vnis_at(table);
    let context = Context {
        for_run,
        names,
        vnis: &vnis,
        edges: 0,
        has_device: false,
    };
    add_edge_by(faults, &context, edge, table)
}

/// Returns the number of tables.
fn count_of(tables: Option<&Array>) -> usize
    requires { IfSome tables (λ a. length a.now.items ≤ 64) }
    ensures value { result ≡ count_of (items_at tables.entry) }
    ensures few { result ≤ 64 }
{
    match tables {
        Some(array) => array.len(),
        None => 0,
    }
}

/// Collects the faults of these edges, and adds the names that they spell.
fn add_edges<'a>(
    faults: &mut Vec<FaultyKey<'a>>,
    for_run: bool,
    names: &mut SeenNames,
    tables: &'a Array,
) -> Result<(), AllocError>
    requires addresses { length names.old.addresses.items + length tables.now.items ≤ 64 }
    requires bridges { length names.old.bridges.items + length tables.now.items ≤ 64 }
    ensures faults { Adds (edges_faults for_run (names_view names.old) 1 (array_view tables.now))
        faults.old.items faults.new.items result }
    ensures names { OnOk result (names_view names.new
        ≡ after_all (names_view names.old) (array_view tables.now)) }
    ensures addresses { OnOk result (length names.new.addresses.items
        ≤ length names.old.addresses.items + length tables.now.items) }
    ensures bridges { OnOk result (length names.new.bridges.items
        ≤ length names.old.bridges.items + length tables.now.items) }
{
    let mut edge = 1usize;
    for value in tables {
        if let Some(table) = value.as_table() {
            add_edge(faults, for_run, names, edge, table)?;
            names.join(table);
        }
        edge += 1;
    }
    Ok(())
}

/// Collects the faults of these edges, if there are any, and adds the names that they spell.
fn add_edges_at<'a>(
    faults: &mut Vec<FaultyKey<'a>>,
    for_run: bool,
    names: &mut SeenNames,
    tables: Option<&'a Array>,
) -> Result<(), AllocError>
    requires addresses { length names.old.addresses.items + count_of (items_at tables) ≤ 64 }
    requires bridges { length names.old.bridges.items + count_of (items_at tables) ≤ 64 }
    ensures faults { Adds (edges_faults for_run (names_view names.old) 1 (items_at tables.entry))
        faults.old.items faults.new.items result }
    ensures names { OnOk result (names_view names.new
        ≡ after_all (names_view names.old) (items_at tables.entry)) }
    ensures addresses { OnOk result (length names.new.addresses.items
        ≤ length names.old.addresses.items + count_of (items_at tables.entry)) }
    ensures bridges { OnOk result (length names.new.bridges.items
        ≤ length names.old.bridges.items + count_of (items_at tables.entry)) }
{
    match tables {
        Some(array) => add_edges(faults, for_run, names, array),
        None => Ok(()),
    }
}

/// Collects the faults of a peer, given the names of the tables before it.
fn add_peer<'a>(
    faults: &mut Vec<FaultyKey<'a>>,
    names: &SeenNames,
    peer: usize,
    table: &'a Table,
) -> Result<(), AllocError>
    ensures { Adds (peer_faults (names_view names.now) peer (Some (table_view table.now)))
        faults.old.items faults.new.items result }
{
    let context = Context {
        for_run: true,
        names,
        vnis: &None,
        edges: 0,
        has_device: false,
    };
    add_table(
        faults,
        &context,
        DocumentTable::Peer(peer, table),
        &PEER,
        table,
    )
}

/// Collects the faults of these peers, and adds the names that they spell.
fn add_peers<'a>(
    faults: &mut Vec<FaultyKey<'a>>,
    names: &mut SeenNames,
    tables: &'a Array,
) -> Result<(), AllocError>
    requires addresses { length names.old.addresses.items + length tables.now.items ≤ 64 }
    requires bridges { length names.old.bridges.items + length tables.now.items ≤ 64 }
    ensures faults { Adds (peers_faults (names_view names.old) 1 (array_view tables.now))
        faults.old.items faults.new.items result }
    ensures names { OnOk result (names_view names.new
        ≡ after_all (names_view names.old) (array_view tables.now)) }
{
    let mut peer = 1usize;
    for value in tables {
        if let Some(table) = value.as_table() {
            add_peer(faults, names, peer, table)?;
            names.join(table);
        }
        peer += 1;
    }
    Ok(())
}

/// Collects the faults of these peers, if there are any, and adds the names that they spell.
fn add_peers_at<'a>(
    faults: &mut Vec<FaultyKey<'a>>,
    names: &mut SeenNames,
    tables: Option<&'a Array>,
) -> Result<(), AllocError>
    requires addresses { length names.old.addresses.items + count_of (items_at tables) ≤ 64 }
    requires bridges { length names.old.bridges.items + count_of (items_at tables) ≤ 64 }
    ensures faults { Adds (peers_faults (names_view names.old) 1 (items_at tables.entry))
        faults.old.items faults.new.items result }
    ensures names { OnOk result (names_view names.new
        ≡ after_all (names_view names.old) (items_at tables.entry)) }
{
    match tables {
        Some(array) => add_peers(faults, names, array),
        None => Ok(()),
    }
}

/// Returns `true` if ports need their endpoints for this use.
fn is_run(wanted: Use) -> bool
    ensures { result ≡ is_run wanted }
{
    match wanted {
        Use::Any => false,
        Use::Run | Use::Serve => true,
    }
}

/// Returns the rows of the document's own keys.
pub(crate) fn file_rows(wanted: Use) -> &'static [Row]
    ensures { map row_of result.now ≡ rows_for wanted }
{
    match wanted {
        Use::Any | Use::Run => &FILE,
        Use::Serve => &SERVED,
    }
}

/// Collects the faults of the document's own keys, given the number of edges.
fn add_own<'a>(
    faults: &mut Vec<FaultyKey<'a>>,
    wanted: Use,
    edges: usize,
    document: &'a Table,
) -> Result<(), AllocError>
    requires { edges ≤ 64 }
    ensures { Adds (own_faults wanted edges (table_view document.now)) faults.old.items
        faults.new.items result }
{
    let context = Context {
        for_run: true,
        names: &SeenNames::new(),
        vnis: &None,
        edges,
        has_device: false,
    };
    add_table(
        faults,
        &context,
        DocumentTable::File(document),
        file_rows(wanted),
        document,
    )
}

/// Returns the tables of the peers, given the number of edges, if there are any for this use.
fn peers_at<'a>(wanted: Use, document: &'a Table, edges: usize) -> Option<&'a Array>
    requires { edges ≤ 64 }
    ensures value { items_at result ≡ peers_beside wanted edges (table_view document.now) }
    ensures room { edges + count_of (items_at result) ≤ 64 }
{
    match wanted {
        Use::Any | Use::Run => None,
        Use::Serve => tables_beside(value_at(document, "peer")?, edges),
    }
}

/// The faults of a document, and the names of its edges and peers.
#[derive(Drop)]
pub(crate) struct Findings<'a> {
    /// Its faults, in their order.
    pub(crate) faults: Vec<FaultyKey<'a>>,
    /// The names of its edges and peers.
    pub(crate) names: SeenNames,
}

/// Returns all faults of a document for a use, in the order in which its keys are read, and the
/// names of its edges and peers.
///
/// # Errors
///
/// `AllocError` if memory is refused.
pub(crate) fn walk<'a>(
    alloc: Global,
    wanted: Use,
    document: &'a Table,
) -> Result<Findings<'a>, AllocError>
    ensures faults { IfOk result (λ w. faults_view w.faults.items
        ≡ faults_in wanted (table_view document.now)) }
    ensures names { IfOk result (λ w. names_view w.names
        ≡ names_in wanted (table_view document.now)) }
{
    let mut faults = Vec::new(alloc);
    let mut names = SeenNames::new();
    let edges = tables_at(document, "edge");
    let count = count_of(edges);
    let peers = peers_at(wanted, document, count);
    let for_run = is_run(wanted);
    add_own(&mut faults, wanted, count, document)?;
    add_edges_at(&mut faults, for_run, &mut names, edges)?;
    add_devices(alloc, &mut faults, for_run, edges)?;
    add_peers_at(&mut faults, &mut names, peers)?;
    Ok(Findings { faults, names })
}
