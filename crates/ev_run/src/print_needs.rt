//! The texts about the resources that a run takes, and about the parts of a configuration that it
//! can't use.
#![tactic(auto, using(ether_wire::proofs::Appending::with_text_twice, ether_wire::proofs::Appending::with_text_none))]

ghost use Rattle.ether_wire.specs.Ends.{Puts};
ghost use Rattle.std.specs.Prelude.{◌++◌, [], if◌then◌else◌};
ghost use Rattle.ev_run.specs.Needs.{threads_text, sockets_text, devices_text, memory_text, needs_text, clients_text, asked_text};
ghost use Rattle.ev_run.specs.Obstacles.{lead_text, cause_text, port_text, seat_text, end_text, most_text, most_threads_text, obstacle_text, told_of, obstacles_text};

use crate::needs::Needs;
use crate::obstacles::{Cause, EdgePort, End, Obstacle};
use crate::sockets::put_endpoint;
use ether_wire::{Device, Out, put_decimal};
use ev_config::Endpoint;

/// Writes the number of threads.
fn put_threads<W: Out>(out: &mut W, threads: u64) -> Result<(), Device>
    ensures { Puts (W.end out.old) (W.end out.new) (threads_text threads) result }
{
    put_decimal(out, threads)?;
    out.put(b" threads\n")
}

/// Writes the number of sockets.
fn put_sockets<W: Out>(out: &mut W, sockets: u64) -> Result<(), Device>
    ensures { Puts (W.end out.old) (W.end out.new) (sockets_text sockets) result }
{
    put_decimal(out, sockets)?;
    out.put(b" UDP sockets\n")
}

/// Writes the number of devices, if there are any.
fn put_devices<W: Out>(out: &mut W, devices: u64) -> Result<(), Device>
    ensures { Puts (W.end out.old) (W.end out.new) (devices_text devices) result }
{
    if devices == 0 {
        return Ok(());
    }
    put_decimal(out, devices)?;
    out.put(if devices == 1 {
        b" device\n"
    } else {
        b" devices\n"
    })
}

/// Writes the amount of memory in MiB.
fn put_memory<W: Out>(out: &mut W, memory: u64) -> Result<(), Device>
    ensures { Puts (W.end out.old) (W.end out.new) (memory_text memory) result }
{
    out.put(b"about ")?;
    put_decimal(out, memory / 1_048_576 + 1)?;
    out.put(b" MiB of memory\n")
}

/// Writes the resources that a run takes at its beginning, a line each.
///
/// # Errors
///
/// `Device` exactly if a call of the writer failed; then no further call is made.
fn put_needs<W: Out>(out: &mut W, needs: Needs) -> Result<(), Device>
    ensures { Puts (W.end out.old) (W.end out.new) (needs_text needs) result }
{
    put_threads(out, needs.threads)?;
    put_sockets(out, needs.sockets)?;
    put_devices(out, needs.devices)?;
    put_memory(out, needs.memory)
}

/// Writes the resources that clients take in addition, if clients may query the run.
fn put_clients<W: Out>(out: &mut W, is_asked: bool) -> Result<(), Device>
    ensures { Puts (W.end out.old) (W.end out.new)
        (if is_asked then clients_text else []) result }
{
    if !is_asked {
        return Ok(());
    }
    out.put(b"for 8 clients at most 18 threads, 18 sockets and about 2 MiB of memory more\n")
}

/// Writes the resources that a run takes, a line each, and those that its clients take at most if
/// they may query the run.
///
/// # Errors
///
/// As `put_needs`.
pub fn put_asked_needs<W: Out>(out: &mut W, needs: Needs, is_asked: bool) -> Result<(), Device>
    ensures { Puts (W.end out.old) (W.end out.new) (asked_text is_asked needs) result }
{
    put_needs(out, needs)?;
    put_clients(out, is_asked)
}

/// Writes `, port P: `.
fn put_port<N: Out>(notes: &mut N, port: u64) -> Result<(), Device>
    ensures { Puts (N.end notes.old) (N.end notes.new) (port_text port) result }
{
    notes.put(b", port ")?;
    put_decimal(notes, port)?;
    notes.put(b": ")
}

/// Writes `edge E, port P: `.
fn put_seat<N: Out>(notes: &mut N, seat: EdgePort) -> Result<(), Device>
    ensures { Puts (N.end notes.old) (N.end notes.new) (seat_text seat) result }
{
    notes.put(b"edge ")?;
    put_decimal(notes, seat.edge)?;
    put_port(notes, seat.port)
}

/// Writes the kind of an end.
fn put_lead<N: Out>(notes: &mut N, end: End) -> Result<(), Device>
    ensures { Puts (N.end notes.old) (N.end notes.new) (lead_text end) result }
{
    match end {
        End::Local => notes.put(b"local is "),
        End::Remote => notes.put(b"remote is "),
    }
}

/// Writes the kind of an end, and its endpoint.
fn put_end<N: Out>(notes: &mut N, end: End, at: Endpoint) -> Result<(), Device>
    ensures { Puts (N.end notes.old) (N.end notes.new) (end_text end at) result }
{
    put_lead(notes, end)?;
    put_endpoint(notes, at)
}

/// Writes why an end is of no use.
fn put_cause<N: Out>(notes: &mut N, cause: Cause) -> Result<(), Device>
    ensures { Puts (N.end notes.old) (N.end notes.new) (cause_text cause) result }
{
    match cause {
        Cause::NoPort => notes.put(b", and UDP port 0 is none\n"),
        Cause::NoHost => notes.put(b", and address 0.0.0.0 is nobody's\n"),
        Cause::Tunnel => notes.put(b", where an edge has its tunnels\n"),
        Cause::Taken => notes.put(b", where a port before it takes its frames\n"),
    }
}

/// Writes which edge has the address 0.0.0.0.
fn put_unheard<N: Out>(notes: &mut N, edge: u64) -> Result<(), Device>
    ensures { Puts (N.end notes.old) (N.end notes.new)
        (obstacle_text (Obstacle.Unheard edge)) result }
{
    notes.put(b"edge ")?;
    put_decimal(notes, edge)?;
    notes.put(b": address is 0.0.0.0, from which no edge is heard\n")
}

/// Writes which end of a port is of no use, and why.
fn put_useless<N: Out>(
    notes: &mut N,
    seat: EdgePort,
    end: End,
    at: Endpoint,
    cause: Cause,
) -> Result<(), Device>
    ensures { Puts (N.end notes.old) (N.end notes.new)
        (obstacle_text (Obstacle.Useless seat end at cause)) result }
{
    put_seat(notes, seat)?;
    put_end(notes, end, at)?;
    put_cause(notes, cause)
}

/// Writes the number of descriptors that are allowed.
fn put_most<N: Out>(notes: &mut N, most: u64) -> Result<(), Device>
    ensures { Puts (N.end notes.old) (N.end notes.new) (most_text most) result }
{
    notes.put(b" sockets and 3 standard streams, allowed are ")?;
    put_decimal(notes, most)?;
    notes.put(b" descriptors\n")
}

/// Writes that there are too many sockets.
fn put_too_many<N: Out>(notes: &mut N, sockets: u64, most: u64) -> Result<(), Device>
    ensures { Puts (N.end notes.old) (N.end notes.new)
        (obstacle_text (Obstacle.TooMany sockets most)) result }
{
    put_decimal(notes, sockets)?;
    put_most(notes, most)
}

/// Writes the number of threads that are allowed.
fn put_most_threads<N: Out>(notes: &mut N, most: u64) -> Result<(), Device>
    ensures { Puts (N.end notes.old) (N.end notes.new) (most_threads_text most) result }
{
    notes.put(b" threads, allowed are ")?;
    put_decimal(notes, most)?;
    notes.put(b"\n")
}

/// Writes that there are too many threads.
fn put_too_many_threads<N: Out>(notes: &mut N, threads: u64, most: u64) -> Result<(), Device>
    ensures { Puts (N.end notes.old) (N.end notes.new)
        (obstacle_text (Obstacle.TooManyThreads threads most)) result }
{
    put_decimal(notes, threads)?;
    put_most_threads(notes, most)
}

/// Writes an obstacle.
fn put_obstacle<N: Out>(notes: &mut N, obstacle: Obstacle) -> Result<(), Device>
    ensures { Puts (N.end notes.old) (N.end notes.new) (obstacle_text obstacle) result }
{
    match obstacle {
        Obstacle::Unheard(edge) => put_unheard(notes, edge),
        Obstacle::Useless(seat, end, at, cause) => put_useless(notes, seat, end, at, cause),
        Obstacle::TooMany(sockets, most) => put_too_many(notes, sockets, most),
        Obstacle::TooManyThreads(threads, most) => put_too_many_threads(notes, threads, most),
    }
}

/// Writes these obstacles, a line each.
///
/// # Errors
///
/// `Device` exactly if a call of the writer failed; then no further call is made.
pub fn put_obstacles<N: Out>(notes: &mut N, found: &[Obstacle]) -> Result<(), Device>
    ensures { Puts (N.end notes.old) (N.end notes.new) (obstacles_text found.now) result }
{
    for obstacle in found {
        put_obstacle(notes, *obstacle)?;
    }
    Ok(())
}
