//! The threads of an edge that enter events into its book: those of the ports, of the tunnel and of
//! the clock, and that of the edge's mailbox.
ghost use Rattle.std.specs.Prelude.{◌≡◌, ◌+◌, ◌≤◌, vec_len, vec_capacity};

use crate::edge_outcome::Faults;
use crate::gate::Gate;
use crate::outlet::{Senders, WorkerOutlet};
use crate::plan::{Entered, Entering, Shared, Task, source_of};
use crate::shared_edge::{Ended, SharedEdge};
use crate::worker::Worker;
use crate::workers::{clock_worker, peer_worker, port_worker, tunnel_worker};
use ev_book::{Naming, Pass, Placed};
use ev_links::{CountedLink, LinkIn, PromptOut};
use ev_mailboxes::UpdateBox;
use std::sync::Wait;
use std::sync::atomic::{AtomicBool, Ordering};
use std::sync::ledger::Ledger;
use std::thread::{JoinHandle, Scope, Threads};

/// The workplace of the workers of an edge that enter events: the edge, their outlet, and the
/// values that they share.
#[derive(Drop)]
pub(crate) struct WorkerContext<'x, L: Placed, J: Naming, K, G, R> {
    /// The edge.
    pub(crate) shared_edge: SharedEdge<'x, L, J, G, R>,
    /// The outlet for the answers of the edge's book.
    pub(crate) outlet: Senders<'x, J, K, R>,
    /// The values that all threads of the edge share.
    pub(crate) shared: &'x Shared<K>,
}

/// Runs the worker of other edges' updates over the edge's mailbox, and closes the mailbox. Returns
/// at once with `Ended::NoMemory` if another worker has the mailbox.
fn enter_updates<'x, L: Placed, J: Naming, K: PromptOut, G: Gate, R: Wait>(
    worker: &mut Worker<'x, L, J, WorkerOutlet<'x, J, K, R>, G, R>,
    senders: Senders<'x, J, K, R>,
) -> Ended {
    let Some(mut updates) = UpdateBox::open(senders.rt, senders.peers) else {
        return Ended::NoMemory;
    };
    let ended = peer_worker(worker, &mut updates);
    updates.close();
    ended
}

/// Returns the link at a place, which shows what comes over it.
fn counted<'x, J: Naming, I: LinkIn, K, R>(
    senders: Senders<'x, J, K, R>,
    place: usize,
    link: I,
) -> CountedLink<'x, I> {
    let cell = match senders.peers.link(place) {
        Some(counts) => Some(&counts.received),
        None => None,
    };
    CountedLink::new(link, cell)
}

/// Runs the worker of a task until it ends. Returns at once with `Ended::NoMemory` if the task's
/// thread was refused.
fn enter_task<'x, L: Placed, J: Naming, I: LinkIn + Drop, K: PromptOut, G: Gate, R: Wait>(
    workplace: &'x WorkerContext<'x, L, J, K, G, R>,
    pass: Pass<L>,
    task: Task<I>,
    is_refused: &AtomicBool,
) -> Entered<L> {
    if is_refused.load(Ordering::SeqCst) {
        return (pass, Ended::NoMemory);
    }
    let senders = workplace.outlet;
    let Some(outlet) = WorkerOutlet::new(senders, source_of(&task)) else {
        return (pass, Ended::NoMemory);
    };
    let mut worker = Worker::new(&workplace.shared_edge, pass, outlet);
    let ended = match task {
        Task::Peer => enter_updates(&mut worker, senders),
        Task::Port(port, vni, link) => {
            let mut link = counted(senders, port as usize, link);
            port_worker(&mut worker, &mut link, port, vni)
        }
        Task::Tunnel(link) => {
            let mut link = counted(senders, 0, link);
            tunnel_worker(&mut worker, &mut link)
        }
        Task::Clock(mut clock) => clock_worker(&mut worker, &mut clock),
    };
    (worker.pass, ended)
}

/// Starts the thread of a task. If the thread is refused, returns the pass with `Ended::NoMemory`.
fn start_task<
    's,
    'x: 's,
    L: Placed + Send + Sync + 'x,
    J: Naming + Send + Sync + 'x,
    I: LinkIn + Drop + Send + 'x,
    K: PromptOut + Send + 'x,
    G: Gate + Sync + 'x,
    R: Wait + Sync + 'x,
>(
    scope: &Scope<'s, &'x ()>,
    workplace: &'x WorkerContext<'x, L, J, K, G, R>,
    pass: Pass<L>,
    task: Task<I>,
    is_refused: &'x AtomicBool,
) -> Result<JoinHandle<Entered<L>>, Entered<L>> {
    match scope.spawn(move || enter_task(workplace, pass, task, is_refused)) {
        Ok(handle) => Ok(handle),
        Err(no_thread) => {
            is_refused.store(true, Ordering::SeqCst);
            Err((no_thread.value)())
        }
    }
}

/// Starts a thread for each link whose datagrams are entered, the clock's first. Starts no further
/// one after a refused thread: ports of an edge without a clock would send no BPDU, and frames
/// could run in a circle. Keeps the passes of all tasks without a thread.
pub(crate) fn start_entering<
    's,
    'x: 's,
    L: Placed + Send + Sync + 'x,
    J: Naming + Send + Sync + 'x,
    I: LinkIn + Drop + Send + 'x,
    K: PromptOut + Send + 'x,
    G: Gate + Sync + 'x,
    R: Wait + Sync + 'x,
>(
    scope: &Scope<'s, &'x ()>,
    workplace: &'x WorkerContext<'x, L, J, K, G, R>,
    tasks: Vec<Task<I>>,
    fresh: Vec<Pass<L>>,
    entering: Entering<L>,
) -> (Entering<L>, Faults)
    requires words { vec_len tasks ≤ vec_len workplace.now.shared.now.no_entering }
    requires fresh { vec_len fresh ≡ vec_len tasks }
    requires running { vec_len entering.running + vec_len tasks ≤ vec_capacity entering.running }
    requires passes { vec_len entering.passes + vec_len tasks + 1 ≤ vec_capacity entering.passes }
    ensures all { vec_len result.0.running + vec_len result.0.passes
        ≡ vec_len entering.running + vec_len entering.passes + vec_len tasks }
    ensures room { vec_capacity result.0.passes ≡ vec_capacity entering.passes }
{
    let Entering {
        mut running,
        mut passes,
    } = entering;
    let shared = workplace.shared;
    let mut fresh = fresh;
    let mut tasks = tasks;
    let mut faults = Faults::none();
    if let Some(last) = tasks.len().checked_sub(1) {
        tasks.swap(0, last);
    }
    while let (Some(task), Some(pass)) = (tasks.pop(), fresh.pop()) {
        if faults.memory {
            passes.push_reserved(pass);
            continue;
        }
        let is_refused = &shared.no_entering[tasks.len()];
        match start_task(scope, workplace, pass, task, is_refused) {
            Ok(handle) => running.push_reserved(handle),
            Err((pass, ended)) => {
                passes.push_reserved(pass);
                faults = faults.with(ended);
            }
        }
    }
    (Entering { running, passes }, faults)
}

/// Waits for the threads that enter events, and returns all passes.
pub(crate) fn join_entering<L: Ledger, R: Threads>(
    rt: &R,
    entering: Entering<L>,
) -> (Vec<Pass<L>>, Faults)
    requires { vec_len entering.passes + vec_len entering.running ≤ vec_capacity entering.passes }
    ensures len { vec_len result.0 ≡ vec_len entering.passes + vec_len entering.running }
    ensures room { vec_capacity result.0 ≡ vec_capacity entering.passes }
{
    let Entering {
        mut running,
        mut passes,
    } = entering;
    let mut faults = Faults::none();
    while let Some(handle) = running.pop() {
        let (pass, ended) = handle.join(rt);
        passes.push_reserved(pass);
        faults = faults.with(ended);
    }
    (passes, faults)
}

/// Starts the thread of the edge's mailbox. If the thread is refused, closes the mailbox and
/// returns the pass with `Ended::NoMemory`.
pub(crate) fn start_peer<
    's,
    'x: 's,
    L: Placed + Send + Sync + 'x,
    J: Naming + Send + Sync + 'x,
    I: LinkIn + Drop + Send + 'x,
    K: PromptOut + Send + 'x,
    G: Gate + Sync + 'x,
    R: Wait + Sync + 'x,
>(
    scope: &Scope<'s, &'x ()>,
    workplace: &'x WorkerContext<'x, L, J, K, G, R>,
    pass: Pass<L>,
) -> Result<JoinHandle<Entered<L>>, Entered<L>> {
    let task: Task<I> = Task::Peer;
    let started = start_task(scope, workplace, pass, task, &workplace.shared.no_peer);
    if started.is_err() {
        workplace.outlet.peers.leave(workplace.outlet.rt);
    }
    started
}
