//! Edges that run under a name of their history. Each run picks the name.
#![tactic(auto, using(ether_wire::proofs::Appending::with_text_twice, ether_wire::proofs::Appending::with_text_none))]

ghost use Rattle.std.specs.Prelude.{◌≡◌, ◌∷◌, [], ◌^◌, length, vec_len, IfOk, OnErr};
ghost use Rattle.ether_wire.specs.Ends.{IsOpen, Allows};
ghost use Rattle.ev_book.specs.declared.log_entry.LogEntry.TheVariants.{Begins};
ghost use Rattle.ev_peers.specs.EdgeThreads.{AreRanFrom};
ghost use Rattle.ev_peers.specs.History.{configs_of, IsHistoryOf};
ghost use Rattle.ev_run.specs.RunEdges.{ReadsOut};
ghost use Rattle.ev_run.specs.Inner.RunEdges.{TellsMeanwhile};

use crate::bound::{Sockets, end_all_reads};
use crate::clients::read_out;
use crate::run::{Ready, RunContext, tell_meanwhile};
use ether_wire::{Device, In, Out};
use ev_book::{Naming, NewHistory};
use ev_console::SystemDrops;
use ev_links::{Wire, WireOut};
use ev_mailboxes::Boards;
use ev_peers::{EdgeOutcome, Mailroom, OpenGate, PreparedEdges, run_all};
use std::alloc::AllocError;
use std::sync::Wait;
use std::sync::atomic::{AtomicBool, Ordering};
use std::thread::{Threads, join};
use std::time::Clock;

/// The result of a run: that of each edge, and `true` if the input was read up to its end.
pub(crate) type Reached = (Vec<Result<EdgeOutcome, AllocError>>, bool);

/// The sockets of edges, and the means to stop them.
#[derive(Drop)]
pub(crate) struct Ends<'x, T> {
    /// The sockets of the edges.
    pub(crate) sockets: &'x [Sockets],
    /// The flag that makes the edges stop.
    pub(crate) stop: &'x AtomicBool,
    /// The system's counters at the sockets.
    pub(crate) system: &'x T,
}

/// Runs edges until the reader ends, and then stops them. Clients of a control socket may query
/// them meanwhile.
fn run_reading<
    'x,
    J: Naming + Send + Sync,
    R: Threads + Wait + Clock + Sync,
    T: SystemDrops + Sync,
    E: In,
>(
    host: &RunContext<'x, R>,
    start: PreparedEdges<J, Wire<'x, R>, WireOut<'x>>,
    mailroom: &Mailroom<J>,
    boards: &Boards,
    ends: Ends<'x, T>,
    reader: &mut E,
) -> Reached
    requires { Allows (2 ^ 40) (E.end reader.old) }
    ensures all { vec_len result.0 ≡ length start.entry }
    ensures each { AreRanFrom 1 start.entry result.0.items }
    ensures history { IsHistoryOf J.outside (configs_of start.entry) result.0.items }
    ensures read { ReadsOut (E.end reader.old) (E.end reader.new) result.1 }
{
    let (rt, alloc, service) = (host.rt, host.alloc, host.service);
    let Ends {
        sockets,
        stop,
        system,
    } = ends;
    // The closure returns the reader; its ghost name shows that it is this reader.
    let (ended, (is_read, _reader)) = run_all(
        rt,
        start,
        mailroom,
        boards,
        &OpenGate,
        || -> (bool, &mut E)
            requires { Allows (2 ^ 40) (E.end reader.now) }
            ensures same { result.1.ghost_name ≡ reader.entry.ghost_name }
            ensures read { ReadsOut (E.end reader.entry.now) (E.end result.1.now) result.0 }
        {
            let running = mailroom.running(boards);
            let is_read = read_out(rt, alloc, running, service, system, &mut *reader);
            stop.store(true, Ordering::SeqCst);
            end_all_reads(sockets);
            (is_read, reader)
        },
    );
    (ended, is_read)
}

/// Edges over sockets that are about to run, and their history, which has just begun.
#[derive(Drop)]
pub(crate) struct Prepared<'x, R, T> {
    /// The edges.
    pub(crate) setups: Vec<Ready<'x, R>>,
    /// Their history.
    pub(crate) history: NewHistory,
    /// The means to stop them.
    pub(crate) ends: Ends<'x, T>,
}

/// Runs edges under a name of their history until the reader ends, and writes their alerts
/// meanwhile. Returns the result of the alerts, and that of the run.
///
/// # Errors
///
/// `AllocError` if memory is refused before an edge has begun.
pub(crate) fn run_named<
    'x,
    J: Naming + Send + Sync,
    R: Threads + Wait + Clock + Sync,
    T: SystemDrops + Sync,
    E: In,
    N: Out + Send,
>(
    host: &RunContext<'x, R>,
    prepared: Prepared<'x, R, T>,
    reader: &mut E,
    notes: &mut N,
) -> Result<(Result<(), Device>, Reached), AllocError>
    requires named { prepared.history.seen.book ≡ J.book }
    requires begins { prepared.history.seen.log
        ≡ Begins J.outside (configs_of prepared.setups.items) ∷ [] }
    requires reader { Allows (2 ^ 40) (E.end reader.old) }
    requires notes { IsOpen (N.end notes.old) }
    ensures told { IfOk result (λ r. TellsMeanwhile (N.end notes.old) (N.end notes.new) r.0) }
    ensures all { IfOk result (λ r. vec_len r.1.0 ≡ vec_len prepared.entry.setups) }
    ensures each { IfOk result (λ r. AreRanFrom 1 prepared.entry.setups.items r.1.0.items) }
    ensures history { IfOk result
        (λ r. IsHistoryOf J.outside (configs_of prepared.entry.setups.items) r.1.0.items) }
    ensures read { IfOk result (λ r. ReadsOut (E.end reader.old) (E.end reader.new) r.1.1) }
    ensures refused { OnErr result (N.end notes.new ≡ N.end notes.old) }
{
    let (rt, alloc) = (host.rt, host.alloc);
    let Prepared {
        setups,
        history,
        ends,
    } = prepared;
    let boards = Boards::new(alloc, setups.len())?;
    let (start, mailroom) = PreparedEdges::<J, Wire<'x, R>, WireOut<'x>>::new(
        alloc, setups, history,
    )?;
    // The closures return `reader` and `notes`; their ghost names show that they are these.
    let (first, second) = join(
        rt,
        || -> (Result<(), Device>, &mut N)
            requires { IsOpen (N.end notes.now) }
            ensures same { result.1.ghost_name ≡ notes.entry.ghost_name }
            ensures told { TellsMeanwhile (N.end notes.entry.now) (N.end result.1.now) result.0 }
        {
            let told = tell_meanwhile(rt, &boards, &mut *notes);
            (told, notes)
        },
        || -> (Reached, &mut E)
            requires { Allows (2 ^ 40) (E.end reader.now) }
            ensures same { result.1.ghost_name ≡ reader.entry.ghost_name }
            ensures all { vec_len result.0.0 ≡ length start.entry }
            ensures each { AreRanFrom 1 start.entry result.0.0.items }
            ensures history { IsHistoryOf J.outside (configs_of start.entry) result.0.0.items }
            ensures read { ReadsOut (E.end reader.entry.now) (E.end result.1.now) result.0.1 }
        {
            let reached = run_reading(host, start, &mailroom, &boards, ends, &mut *reader);
            (reached, reader)
        },
    );
    let (told, _notes) = first;
    let (reached, _reader) = second;
    Ok((told, reached))
}
