//! The texts that a run writes at its end.
#![tactic(auto, using(ether_wire::proofs::Appending::with_text_twice, ether_wire::proofs::Appending::with_text_none))]

ghost use Rattle.std.specs.Prelude.{◌≡◌, ◌++◌, codes, map};
ghost use Rattle.std.specs.Fmt.{decimal};
ghost use Rattle.ether_wire.specs.Ends.{Puts};
ghost use Rattle.ev_run.specs.declared.print.Dropped.TheVariants.{NoRoom};
ghost use Rattle.ev_run.specs.Inner.Sockets.{bound_at, local_end};
ghost use Rattle.ev_run.specs.LinkEnds.{Udp};
ghost use Rattle.ev_run.specs.SystemDrops.{dropped_at_end};
ghost use Rattle.ev_run.specs.RunEdges.{edge_text, ended_text, reports_from, link_text, dropped_words, dropped_text, drops_text, socket_text, sockets_text, system_text, lost_text, noted_text};
ghost use Rattle.ev_view.specs.EdgeViews.{each_from};

use crate::bound::{Cable, Sockets};
use crate::system_drops::dropped_at;
use ether_wire::{Device, Out, put_decimal};
use ev_config::Endpoint;
use ev_edge::Edge;
use ev_peers::EdgeOutcome;
use std::alloc::AllocError;

/// Writes `edge E`, and then the edge's report.
fn put_report<W: Out>(out: &mut W, number: u64, edge: &Edge) -> Result<(), Device>
    ensures { Puts (W.end out.old) (W.end out.new) (edge_text number edge.now) result }
{
    out.put(b"edge ")?;
    put_decimal(out, number)?;
    out.put(b"\n")?;
    edge.report(out)
}

/// Writes the report of an edge, if it ran.
fn put_ended<W: Out>(
    out: &mut W,
    number: u64,
    ended: &Result<EdgeOutcome, AllocError>,
) -> Result<(), Device>
    ensures { Puts (W.end out.old) (W.end out.new) (ended_text number ended.now) result }
{
    match ended {
        Ok(outcome) => put_report(out, number, &outcome.edge),
        Err(_) => Ok(()),
    }
}

/// Writes the reports of the edges that ran, each with its number.
///
/// # Errors
///
/// `Device` exactly if a call of the writer failed; then no further call is made.
pub(crate) fn put_reports<W: Out>(
    out: &mut W,
    ended: &[Result<EdgeOutcome, AllocError>],
) -> Result<(), Device>
    ensures { Puts (W.end out.old) (W.end out.new) (reports_from 1 ended.now) result }
{
    for (place, one) in ended.iter().enumerate() {
        put_ended(out, place as u64 + 1, one)?;
    }
    Ok(())
}

/// Writes which link a line is for: the tunnel's, or that of the port with this number.
fn put_link<N: Out>(notes: &mut N, place: u64) -> Result<(), Device>
    ensures { Puts (N.end notes.old) (N.end notes.new) (link_text place) result }
{
    if place == 0 {
        return notes.put(b"tunnel");
    }
    notes.put(b"port ")?;
    put_decimal(notes, place)
}

/// Writes `edge E `.
fn put_edge<N: Out>(notes: &mut N, number: u64) -> Result<(), Device>
    ensures { Puts (N.end notes.old) (N.end notes.new)
        (codes "edge " ++ decimal number ++ codes " ") result }
{
    notes.put(b"edge ")?;
    put_decimal(notes, number)?;
    notes.put(b" ")
}

/// The kind of a drop at a link.
#[derive(Clone, Copy)]
enum Dropped {
    /// Frames for which the link's line had no room.
    NoRoom,
    /// Datagrams for which the system had no room at the link's socket.
    BySystem,
}

impl Dropped {
    /// Returns the text after the number.
    fn words(self) -> &'static [u8]
        ensures { result.now ≡ dropped_words self }
    {
        match self {
            Dropped::NoRoom => b" frames dropped: no room\n",
            Dropped::BySystem => b" datagrams dropped by the system\n",
        }
    }
}

/// Writes `: N` and the kind of the drop.
fn put_count<N: Out>(notes: &mut N, dropped: u64, what: Dropped) -> Result<(), Device>
    ensures { Puts (N.end notes.old) (N.end notes.new)
        (codes ": " ++ decimal dropped ++ dropped_words what) result }
{
    notes.put(b": ")?;
    put_decimal(notes, dropped)?;
    notes.put(what.words())
}

/// Writes how many frames or datagrams were dropped at a link, if there were any.
fn put_dropped<N: Out>(
    notes: &mut N,
    number: u64,
    place: u64,
    dropped: u64,
    what: Dropped,
) -> Result<(), Device>
    ensures { Puts (N.end notes.old) (N.end notes.new)
        (dropped_text what number place dropped) result }
{
    if dropped == 0 {
        return Ok(());
    }
    put_edge(notes, number)?;
    put_link(notes, place)?;
    put_count(notes, dropped, what)
}

/// Writes how many frames each line of an edge had no room for.
fn put_lines<N: Out>(notes: &mut N, number: u64, dropped: &[u64]) -> Result<(), Device>
    ensures { Puts (N.end notes.old) (N.end notes.new)
        (each_from (dropped_text NoRoom number) 0 dropped.now) result }
{
    for (place, count) in dropped.iter().enumerate() {
        put_dropped(notes, number, place as u64, *count, Dropped::NoRoom)?;
    }
    Ok(())
}

/// Writes how many frames each line of an edge had no room for, if the edge ran.
fn put_drops<N: Out>(
    notes: &mut N,
    number: u64,
    ended: &Result<EdgeOutcome, AllocError>,
) -> Result<(), Device>
    ensures { Puts (N.end notes.old) (N.end notes.new) (drops_text number ended.now) result }
{
    match ended {
        Ok(outcome) => put_lines(notes, number, outcome.dropped.as_slice()),
        Err(_) => Ok(()),
    }
}

/// Writes how many frames each line of the edges that ran had no room for.
fn put_all_drops<N: Out>(
    notes: &mut N,
    ended: &[Result<EdgeOutcome, AllocError>],
) -> Result<(), Device>
    ensures { Puts (N.end notes.old) (N.end notes.new) (each_from drops_text 1 ended.now) result }
{
    for (place, one) in ended.iter().enumerate() {
        put_drops(notes, place as u64 + 1, one)?;
    }
    Ok(())
}

/// The sockets of all edges, and the system's table of sockets.
#[derive(Clone, Copy)]
pub(crate) struct Watched<'a> {
    /// The system's table of UDP sockets, empty if it couldn't be read.
    pub(crate) table: &'a [u8],
    /// The sockets of each edge.
    pub(crate) sockets: &'a [Sockets],
}

/// Writes how many datagrams the system dropped at a socket, if there were any.
fn put_socket<N: Out>(
    notes: &mut N,
    number: u64,
    place: u64,
    table: &[u8],
    at: Endpoint,
) -> Result<(), Device>
    ensures { Puts (N.end notes.old) (N.end notes.new)
        (socket_text table.now number place (Udp at)) result }
{
    put_dropped(
        notes,
        number,
        place,
        dropped_at(table, at),
        Dropped::BySystem,
    )
}

/// Returns how many datagrams the system dropped at a port's cable: 0 for a device.
fn dropped_at_cable(table: &[u8], cable: &Cable) -> u64
    ensures { result ≡ dropped_at_end table.now (local_end cable.now) }
{
    match cable {
        Cable::Socket(_, local, _) => dropped_at(table, *local),
        Cable::Tap(_) => 0,
    }
}

/// Writes how many datagrams the system dropped at a port's cable, if there were any.
fn put_cable<N: Out>(
    notes: &mut N,
    number: u64,
    place: u64,
    table: &[u8],
    cable: &Cable,
) -> Result<(), Device>
    ensures { Puts (N.end notes.old) (N.end notes.new)
        (socket_text table.now number place (local_end cable.now)) result }
{
    put_dropped(
        notes,
        number,
        place,
        dropped_at_cable(table, cable),
        Dropped::BySystem,
    )
}

/// Writes how many datagrams the system dropped at the cables of an edge's ports.
fn put_ports<N: Out>(
    notes: &mut N,
    number: u64,
    table: &[u8],
    ports: &[Cable],
) -> Result<(), Device>
    ensures { Puts (N.end notes.old) (N.end notes.new)
        (each_from (λ place port. socket_text table.now number place (local_end port)) 1 ports.now)
        result }
{
    for (place, cable) in ports.iter().enumerate() {
        put_cable(notes, number, place as u64 + 1, table, cable)?;
    }
    Ok(())
}

/// Writes how many datagrams the system dropped at the sockets of an edge.
fn put_sockets<N: Out>(
    notes: &mut N,
    number: u64,
    table: &[u8],
    sockets: &Sockets,
) -> Result<(), Device>
    ensures { Puts (N.end notes.old) (N.end notes.new)
        (sockets_text table.now number (bound_at sockets.now)) result }
{
    put_socket(notes, number, 0, table, sockets.at)?;
    put_ports(notes, number, table, sockets.ports.as_slice())
}

/// Writes how many datagrams the system dropped at the sockets of all edges.
fn put_all_sockets<N: Out>(notes: &mut N, table: &[u8], sockets: &[Sockets]) -> Result<(), Device>
    ensures { Puts (N.end notes.old) (N.end notes.new)
        (each_from (λ number one. sockets_text table.now number (bound_at one)) 1 sockets.now)
        result }
{
    for (place, one) in sockets.iter().enumerate() {
        put_sockets(notes, place as u64 + 1, table, one)?;
    }
    Ok(())
}

/// Writes the links that had no room for frames, the datagrams that the system dropped at their
/// sockets, and `lost N` if N sends failed.
///
/// # Errors
///
/// `Device` exactly if a call of the writer failed; then no further call is made.
pub(crate) fn put_notes<N: Out>(
    notes: &mut N,
    ended: &[Result<EdgeOutcome, AllocError>],
    watched: Watched<'_>,
    lost: u64,
) -> Result<(), Device>
    ensures { Puts (N.end notes.old) (N.end notes.new)
        (noted_text ended.now
        (system_text watched.entry.table.now (map bound_at watched.entry.sockets.now)) lost)
        result }
{
    put_all_drops(notes, ended)?;
    put_all_sockets(notes, watched.table, watched.sockets)?;
    put_lost(notes, lost)
}

/// Writes `lost N` if sends failed.
fn put_lost<N: Out>(notes: &mut N, lost: u64) -> Result<(), Device>
    ensures { Puts (N.end notes.old) (N.end notes.new) (lost_text lost) result }
{
    if lost == 0 {
        return Ok(());
    }
    notes.put(b"lost ")?;
    put_decimal(notes, lost)?;
    notes.put(b"\n")
}
