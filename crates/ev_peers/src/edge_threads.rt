//! An edge with all its workers, each on a thread of its own.
ghost use Rattle.std.specs.Prelude.{◌≡◌, ◌+◌, ◌<◌, ◌≤◌, length, vec_len, vec_capacity, IfOk};
ghost use Rattle.bpdu_wire.specs.Id.{bridge_address};
ghost use Rattle.ev_edge.specs.Config.{IsConfig};
ghost use Rattle.ev_peers.specs.EdgeThreads.{IsRanOf};
ghost use Rattle.ev_peers.specs.History.{IsSeatOf, StandsAt, outcome_in};
ghost use Rattle.ev_peers.specs.Inner.EdgeThreads.{IsReady};

use crate::edge_links::EdgeLinks;
use crate::edge_outcome::{EdgeOutcome, Faults};
use crate::entering::{WorkerContext, join_entering, start_entering, start_peer};
use crate::gate::Gate;
use crate::outlet::{Senders, report_refused};
use crate::plan::{EdgeThreads, Shared, planned};
use crate::sending::{all_dropped, join_sending, start_sending, stop_sending};
use crate::shared_edge::SharedEdge;
use ether_wire::Mac;
use ev_book::{Book, LoggedBook, Naming, Pass, Placed, Seat, Told, Totals};
use ev_edge::{Edge, EdgeConfig};
use ev_links::{LinkIn, LinkOut, PromptOut};
use ev_mailboxes::Peers;
use std::alloc::{AllocError, Global};
use std::marker::Model;
use std::sync::atomic::Ordering;
use std::sync::ledger::Blank;
use std::sync::{Mutex, Wait};
use std::thread;
use std::thread::{Scope, Threads};
use std::time::Clock;

/// Returns the MAC address from which an edge's bridge sends.
fn bridge_of(config: &EdgeConfig) -> Mac
    ensures { result ≡ bridge_address config.now.tree.identifier }
{
    Mac::new(config.tree.identifier.address())
}

/// The arguments of an edge's workers, ready to run. Its model is the number of
/// passes of the tasks.
#[derive(Drop)]
struct ReadyThreads<'x, L: Placed, J: Naming, I: Drop, O: Drop, G, R> {
    threads: EdgeThreads<L, I, O>,
    /// The passes of the tasks, the last task's first.
    fresh: Vec<Pass<L>>,
    /// The pass of the worker of other edges' records.
    peer: Pass<L>,
    workplace: &'x WorkerContext<'x, L, J, O, G, R>,
}

impl<'x, L: Placed, J: Naming, I: Drop, O: Drop, G, R> Model
    for ReadyThreads<'x, L, J, I, O, G, R> {
    ghost use Rattle.std.specs.Prelude.{ℕ, vec_len, vec_capacity};
    ghost use Rattle.ev_peers.specs.Inner.EdgeThreads.{IsReady};

    ghost Value = { ℕ };

    ghost view = { λ l. vec_len l.fresh };

    ghost invariant = { λ l. IsReady (vec_len l.threads.tasks) (vec_len l.threads.outputs)
        (vec_len l.threads.entering.running) (vec_capacity l.threads.entering.running)
        (vec_len l.threads.sending) (vec_capacity l.threads.sending)
        (vec_len l.threads.entering.passes) (vec_capacity l.threads.entering.passes)
        (vec_len l.workplace.now.shared.now.no_entering)
        (vec_len l.workplace.now.shared.now.no_sending)
        (vec_len l.workplace.now.shared.now.lines) (vec_len l.fresh) };
}

/// Starts the workers of an edge, each on a thread, waits until they have ended, and gives all
/// passes back: those of ports, tunnel and clock, then the one of the other edges' records,
/// then those that send.
fn run_within<
    's,
    'x: 's,
    L: Placed + Send + Sync + 'x,
    J: Naming + Send + Sync + 'x,
    I: LinkIn + Drop + Send + 'x,
    O: LinkOut + PromptOut + Drop + Send + 'x,
    G: Gate + Sync + 'x,
    R: Threads + Wait + Clock + Sync + 'x,
>(
    scope: &Scope<'s, &'x ()>,
    ready_threads: ReadyThreads<'x, L, J, I, O, G, R>,
) -> (Vec<Pass<L>>, Faults)
    ensures { vec_len result.0 ≡ ready_threads.entry + 1 }
{
    let ReadyThreads {
        threads,
        fresh,
        peer,
        workplace,
    } = ready_threads;
    let EdgeThreads {
        tasks,
        outputs,
        entering,
        sending,
    } = threads;
    let (rt, outlet) = (workplace.shared_edge.rt, &workplace.outlet);
    let (sending, no_sent) = start_sending(
        scope,
        rt,
        workplace.shared,
        outlet.peers,
        outputs,
        sending,
    );
    let peer = start_peer::<L, J, I, O, G, R>(scope, workplace, peer);
    let (entering, begun) = start_entering(scope, workplace, tasks, fresh, entering);
    if no_sent.memory || begun.memory || peer.is_err() {
        report_refused(rt, outlet.peers);
    }
    let (mut passes, entered) = join_entering(rt, entering);
    outlet.peers.end(rt);
    let (pass, ended) = match peer {
        Ok(handle) => handle.join(rt),
        Err(entered) => entered,
    };
    passes.push_reserved(pass);
    stop_sending(outlet);
    let sent = join_sending(rt, sending);
    (
        passes,
        no_sent.and(begun).and(entered).and(sent).with(ended),
    )
}

/// The surroundings of an edge.
#[derive(Drop)]
pub struct EdgeContext<'x, J: Naming, G, R> {
    /// Waits, and starts threads.
    pub rt: &'x R,
    /// The allocator.
    pub alloc: Global,
    /// Is told of each call of the edge's book.
    pub gate: &'x G,
    /// The edge's number, from 1.
    pub number: usize,
    /// The other edges, and the edge's own board.
    pub peers: Peers<'x, Told<J>>,
}

/// The book, the lines and the shared data of an edge's workers.
fn workplace_of<'x, L: Placed, J: Naming, K, G, R>(
    host: &EdgeContext<'x, J, G, R>,
    bridge: Mac,
    book: &'x Mutex<LoggedBook<L, J>>,
    shared: &'x Shared<K>,
) -> WorkerContext<'x, L, J, K, G, R>
    ensures shared { result.shared.now ≡ shared.now }
    ensures book { result.shared_edge.book.now ≡ book.now }
    ensures edge { result.shared_edge.edge ≡ host.now.number }
    ensures bridge { result.shared_edge.bridge ≡ bridge }
    ensures lines { result.outlet.lines.now ≡ shared.now.lines.items }
    ensures peers { result.outlet.peers ≡ host.now.peers }
{
    let shared_edge = SharedEdge {
        rt: host.rt,
        book,
        gate: host.gate,
        edge: host.number,
        bridge,
        out_of_memory: &shared.out_of_memory,
    };
    let outlet = Senders {
        rt: host.rt,
        lines: shared.lines.as_slice(),
        peers: host.peers,
    };
    WorkerContext {
        shared_edge,
        outlet,
        shared,
    }
}

/// Runs the workers of an edge over its book.
fn run_workers<
    'x,
    L: Placed + Send + Sync + 'x,
    J: Naming + Send + Sync + 'x,
    I: LinkIn + Drop + Send + 'x,
    O: LinkOut + PromptOut + Drop + Send + 'x,
    G: Gate + Sync + 'x,
    R: Threads + Wait + Clock + Sync + 'x,
>(rt: &'x R, ready_threads: ReadyThreads<'x, L, J, I, O, G, R>) -> (Vec<Pass<L>>, Faults)
    ensures { vec_len result.0 ≡ ready_threads.entry + 1 }
{
    thread::scope(
        thread::scope_env(),
        rt,
        move |scope| -> (Vec<Pass<L>>, Faults)
            ensures { vec_len result.0 ≡ ready_threads.entry + 1 }
        { run_within(scope, ready_threads) },
    )
}

/// Closes a book that no worker holds any more, with the passes that its workers returned. Returns
/// its edge, a count of calls for each part of the ledger, and the edge's seat.
fn closed<L: Placed, J: Naming>(
    book: Mutex<LoggedBook<L, J>>,
    passes: Vec<Pass<L>>,
) -> (Edge, Totals, Seat<J>)
    requires all { vec_len passes ≡ L.parts }
    requires some { (0 < vec_len passes) × (vec_len passes ≤ 256) }
    ensures totals { length result.1 ≡ L.parts }
    ensures stands { StandsAt L.place result.2 result.0 }
{
    book.into_inner().close(passes)
}

/// Opens an edge's book under a ledger of its own, runs the edge's workers, and closes the book
/// with the passes that they return: passes 0, 1 .. are those of the ports, then of the tunnel,
/// the clock and the other edges' records. Returns the edge's seat, too: with its entries, the
/// history of the edges leads to this outcome.
///
/// Only the type of a thread's result is known, and of a book that was under a lock. So no clause
/// contains the workers' events or faults: the contract promises that the outcome has the edge's
/// number and address, and a count of calls for each worker.
///
/// # Errors
///
/// `AllocError` if memory is refused before a worker has begun.
#[tactic(auto, using(crate::proofs::Histories::seat_opens))]
pub fn edge_worker<
    L: Placed + Send + Sync,
    J: Naming + Send + Sync,
    I: LinkIn + Drop + Send,
    O: LinkOut + PromptOut + Drop + Send,
    G: Gate + Sync,
    R: Threads + Wait + Clock + Sync,
>(
    host: EdgeContext<'_, J, G, R>,
    blank: Blank,
    seat: Seat<J>,
    config: EdgeConfig,
    links: EdgeLinks<I, O>,
) -> Result<(EdgeOutcome, Seat<J>), AllocError>
    requires name { blank.name ≡ L.name }
    requires parts { blank.parts ≡ L.parts }
    requires place { seat.place ≡ L.place }
    requires each { blank.parts ≡ vec_len links.ports + 3 }
    requires most { vec_len links.ports ≤ 253 }
    requires config { IsConfig config }
    requires seat { IsSeatOf config seat }
    ensures ran { IsRanOf host.entry.number config.address (vec_len links.ports)
        (outcome_in result) }
    ensures stands { IfOk result (λ r. StandsAt seat.place r.1 r.0.edge) }
{
    let (rt, alloc) = (host.rt, host.alloc);
    host.peers.use_links(links.ports.len() + 1);
    let count = links.ports.len() + 3;
    let bridge = bridge_of(&config);
    let address = config.address;
    let dropped = Vec::with_capacity(alloc, links.ports.len() + 1)?;
    let (threads, shared) = planned(alloc, links, &config)?;
    let (book, mut fresh) = Book::<L>::open(alloc, blank, config, count)?;
    let Some(peer) = fresh.pop() else {
        unreachable!()
    };
    fresh.as_mut_slice().reverse();
    let book = Mutex::new(LoggedBook::new(rt, book, seat));
    let workplace = workplace_of(&host, bridge, &book, &shared);
    let ready_threads = ReadyThreads {
        threads,
        fresh,
        peer,
        workplace: &workplace,
    };
    let (passes, faults) = run_workers(rt, ready_threads);
    let (edge, totals, seat) = closed(book, passes);
    let out_of_memory = shared.out_of_memory.load(Ordering::SeqCst);
    let outcome = EdgeOutcome {
        number: host.number,
        address,
        edge,
        totals,
        faults: faults.with_out_of_memory(out_of_memory),
        dropped: all_dropped(rt, shared.lines.as_slice(), dropped),
    };
    Ok((outcome, seat))
}
