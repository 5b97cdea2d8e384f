//! Edges that run beside each other, each on a thread, with a mailbox for each.
ghost use Rattle.std.specs.Prelude.{◌≡◌, ◌+◌, ◌≤◌, ◌∷◌, [], length, map, reverse, vec_len, vec_capacity, IfOk};
ghost use Rattle.ev_edge.specs.Config.{IsConfig};
ghost use Rattle.ev_book.specs.declared.log_entry.LogEntry.TheVariants.{Begins};
ghost use Rattle.ev_peers.specs.EdgeThreads.{setup_of, IsRanOf, AreRanFrom};
ghost use Rattle.ev_peers.specs.History.{IsSeatOf, outcome_in, configs_of, IsHistoryOf};
ghost use Rattle.ev_peers.specs.Inner.History.{AreSeatsOf, SeatedAs};
ghost use Rattle.ev_peers.specs.Inner.Handles.{IsHandle, AreHandles};

use crate::edge_links::EdgeLinks;
use crate::edge_outcome::EdgeOutcome;
use crate::edge_threads::EdgeContext;
use crate::gate::Gate;
use crate::history::{all_seen, settle_all};
use crate::job::{Job, run_one};
use crate::joining::join_edges;
use crate::outlet::report_refused;
use ether_wire::Addr;
use ev_book::{Front, Naming, NewHistory, Outside, Seat, Told};
use ev_edge::EdgeConfig;
use ev_links::{LinkIn, LinkOut, PromptOut};
use ev_mailboxes::{Boards, Mailboxes, Running};
use std::alloc::{AllocError, Global};
use std::marker::Model;
use std::sync::Wait;
use std::thread;
use std::thread::{Promise, PromisedHandle, Scope, Threads};
use std::time::Clock;

/// The configuration of an edge, and its links, for at most 64 ports. Its model is the
/// configuration and the links over which the ports send.
#[derive(Drop)]
pub struct Setup<I: Drop, O: Drop> {
    pub(crate) config: EdgeConfig,
    pub(crate) links: EdgeLinks<I, O>,
}

impl<I: Drop, O: Drop> Model for Setup<I, O> {
    ghost use Rattle.std.specs.Prelude.{◌≤◌, map, vec_len};
    ghost use Rattle.std.specs.Coded.{codes};
    ghost use Rattle.std.specs.FinMap.{code};
    ghost use Rattle.ev_edge.specs.Config.{IsConfig};
    ghost use Rattle.ev_peers.specs.EdgeThreads.{EdgeSetup, setup_of};

    ghost Value = { EdgeSetup O };

    ghost coded = { Prim.hlevel (codes, code) };

    ghost view = { λ s. setup_of s.config (map (λ link. link.output) s.links.ports.items) };

    ghost invariant = { λ s. IsConfig s.config × (vec_len s.links.ports ≤ 64) };
}

impl<I: Drop, O: Drop> Setup<I, O> {
    /// Returns an edge with these links.
    pub fn new(config: EdgeConfig, links: EdgeLinks<I, O>) -> Self
        requires config { IsConfig config }
        requires few { vec_len links.ports ≤ 64 }
        ensures { result ≡ setup_of config (map (λ link. link.output) links.ports.items) }
    {
        Setup { config, links }
    }

    /// Returns how many workers send updates of it: one per port, and three.
    fn workers(&self) -> u32 {
        self.links.ports.len() as u32 + 3
    }

    /// Returns the promise of this edge's thread, if the edge has this number.
    fn promise(&self, number: usize) -> OfEdge
        ensures number { result.number ≡ number }
        ensures address { result.address ≡ self.now.config.address }
        ensures ports { result.ports ≡ length self.now.outputs }
    {
        OfEdge {
            number,
            address: self.config.address,
            ports: self.links.ports.len(),
        }
    }
}

/// The result of an edge.
pub(crate) type Ran = Result<EdgeOutcome, AllocError>;

/// The result of an edge's thread: the outcome, and the edge's seat in the history.
pub(crate) type SeatedRan<J> = Result<(EdgeOutcome, Seat<J>), AllocError>;

/// The promise that the result of a thread is that of the edge with this number and address, over
/// the links of `ports` ports.
#[derive(Drop)]
pub(crate) struct OfEdge {
    number: usize,
    address: Addr,
    ports: usize,
}

impl<J: Naming> Promise<SeatedRan<J>> for OfEdge {
    ghost use Rattle.ev_peers.specs.EdgeThreads.{IsRanOf};
    ghost use Rattle.ev_peers.specs.History.{outcome_in};
    ghost use Rattle.ev_peers.specs.Inner.History.{SeatedAs};

    ghost kept_by = { λ p ran. IsRanOf p.number p.address p.ports (outcome_in ran)
        × SeatedAs p.number ran };
}

/// The thread of an edge, or `None` if it was refused.
pub(crate) type Handle<J> = Option<PromisedHandle<SeatedRan<J>, OfEdge>>;

/// Returns how many workers of these edges send each other updates: one per port, and three.
fn workers_of<I: Drop, O: Drop>(setups: &[Setup<I, O>]) -> u32 {
    let mut workers = 0u32;
    for setup in setups {
        workers = workers.saturating_add(setup.workers());
    }
    workers
}

/// The surroundings that edges share.
#[derive(Drop)]
struct SharedContext<'x, J: Naming, G, R> {
    /// Waits, and starts threads.
    rt: &'x R,
    /// The allocator.
    alloc: Global,
    /// Called at three points of each call of a book.
    gate: &'x G,
    /// A mailbox for each edge.
    mailboxes: &'x Mailboxes<Told<J>>,
    /// The boards that the operator reads.
    boards: &'x Boards,
}

impl<'x, J: Naming, G, R> SharedContext<'x, J, G, R> {
    /// Returns the surroundings of the edge with this number.
    fn host(&self, number: usize) -> EdgeContext<'x, J, G, R>
        ensures number { result.number ≡ number }
        ensures rt { result.rt.now ≡ self.now.rt.now }
        ensures gate { result.gate.now ≡ self.now.gate.now }
    {
        EdgeContext {
            rt: self.rt,
            alloc: self.alloc,
            gate: self.gate,
            number,
            peers: self.mailboxes.seen_by(number, self.boards),
        }
    }
}

/// Starts the thread of the edge with this number and seat. If it is refused, the operator gets an
/// alert.
fn start_edge<
    's,
    'x: 's,
    J: Naming + Send + Sync + 'x,
    I: LinkIn + Drop + Send + 'x,
    O: LinkOut + PromptOut + Drop + Send + 'x,
    G: Gate + Sync + 'x,
    R: Threads + Wait + Clock + Sync + 'x,
>(
    scope: &Scope<'s, &'x ()>,
    common: &SharedContext<'x, J, G, R>,
    number: usize,
    setup: Setup<I, O>,
    seat: Seat<J>,
) -> Handle<J>
    requires number { seat.place + 1 ≡ number }
    requires seat { IsSeatOf setup.config seat }
    ensures { IsHandle number setup result }
{
    let host = common.host(number);
    let peers = host.peers;
    let promise = setup.promise(number);
    let job = Job { host, setup, seat };
    let started = scope.spawn_with(
        promise,
        move || -> SeatedRan<J>
            ensures ran { IsRanOf job.entry.number job.entry.setup.config.address
                (length job.entry.setup.outputs) (outcome_in result) }
            ensures seated { SeatedAs job.entry.number result }
        { run_one(job) },
    );
    match started {
        Ok(handle) => Some(handle),
        Err(_) => {
            report_refused(common.rt, peers);
            peers.leave(common.rt);
            None
        }
    }
}

/// Starts a thread for each edge, the last one first.
fn start_edges<
    's,
    'x: 's,
    J: Naming + Send + Sync + 'x,
    I: LinkIn + Drop + Send + 'x,
    O: LinkOut + PromptOut + Drop + Send + 'x,
    G: Gate + Sync + 'x,
    R: Threads + Wait + Clock + Sync + 'x,
>(
    scope: &Scope<'s, &'x ()>,
    common: &SharedContext<'x, J, G, R>,
    setups: Vec<Setup<I, O>>,
    seats: Vec<Seat<J>>,
    running: Vec<Handle<J>>,
) -> Vec<Handle<J>>
    requires room { (vec_len running ≡ 0) × (vec_len setups ≤ vec_capacity running) }
    requires each { vec_len seats ≡ vec_len setups }
    requires seats { AreSeatsOf setups.items seats.items }
    ensures len { vec_len result ≡ vec_len setups }
    ensures handles { AreHandles 0 (reverse setups.items) result.items }
{
    let mut setups = setups;
    let mut seats = seats;
    let mut running = running;
    while let Some(setup) = setups.pop() {
        let Some(seat) = seats.pop() else {
            unreachable!()
        };
        let handle = start_edge(scope, common, setups.len() + 1, setup, seat);
        running.push_reserved(handle);
    }
    running
}

/// Edges that are ready to run. Its model is the list of their setups.
#[derive(Drop)]
struct Ready<J: Naming, I: Drop, O: Drop> {
    setups: Vec<Setup<I, O>>,
    seats: Vec<Seat<J>>,
    /// The history as it begins.
    front: Front<J>,
    running: Vec<Handle<J>>,
    ended: Vec<Ran>,
    left: Vec<Option<Seat<J>>>,
}

impl<J: Naming, I: Drop, O: Drop> Model for Ready<J, I, O> {
    ghost use Rattle.std.specs.Prelude.{◌≡◌, ◌∷◌, [], List, vec_len, vec_capacity};
    ghost use Rattle.ev_book.specs.declared.log_entry.LogEntry.TheVariants.{Begins};
    ghost use Rattle.ev_peers.specs.EdgeThreads.{EdgeSetup};
    ghost use Rattle.ev_peers.specs.History.{configs_of};
    ghost use Rattle.ev_peers.specs.Inner.History.{AreSeatsOf};
    ghost use Rattle.ev_peers.specs.Inner.EdgeThreads.{HasEdges};

    ghost Value = { List (EdgeSetup O) };

    ghost view = { λ s. s.setups.items };

    ghost invariant = { λ s. HasEdges (vec_len s.setups) (vec_len s.seats) (vec_len s.running)
        (vec_capacity s.running) (vec_len s.ended) (vec_capacity s.ended) (vec_len s.left)
        (vec_capacity s.left)
        × AreSeatsOf s.setups.items s.seats.items
        × (s.front ≡ Begins J.outside (configs_of s.setups.items) ∷ []) };
}

/// The mailboxes of edges that run beside each other.
#[derive(Drop)]
pub struct Mailroom<J: Naming> {
    mailboxes: Mailboxes<Told<J>>,
    /// The right to bring in updates of other processes, if they may come in.
    outside: Option<Outside<J>>,
}

impl<J: Naming> Mailroom<J> {
    /// Returns the running edges, whose alerts go to these boards.
    pub fn running<'x>(&'x self, boards: &'x Boards) -> Running<'x, J>
        ensures mailboxes { result.mailboxes.now ≡ self.entry.now.mailboxes }
        ensures boards { result.boards.now ≡ boards.now }
    {
        Running::new(&self.mailboxes, boards, self.outside.as_ref())
    }
}

/// Edges that are about to run beside each other. Its model is the list of their setups.
#[derive(Drop)]
pub struct PreparedEdges<J: Naming, I: Drop, O: Drop> {
    ready: Ready<J, I, O>,
    /// The allocator of the edges.
    alloc: Global,
}

impl<J: Naming, I: Drop, O: Drop> Model for PreparedEdges<J, I, O> {
    ghost use Rattle.std.specs.Prelude.{List};
    ghost use Rattle.ev_peers.specs.EdgeThreads.{EdgeSetup};

    ghost Value = { List (EdgeSetup O) };

    ghost view = { λ s. s.ready };
}

impl<J: Naming, I: Drop, O: Drop> PreparedEdges<J, I, O> {
    /// Prepares these edges, whose history has just begun, and their mailboxes. Each edge also
    /// allocates its book from here, when it begins.
    ///
    /// # Errors
    ///
    /// `AllocError` if memory is refused.
    #[tactic(auto, using(crate::proofs::Histories::begun_each, crate::proofs::Histories::begun_seats))]
    pub fn new(
        alloc: Global,
        setups: Vec<Setup<I, O>>,
        history: NewHistory,
    ) -> Result<(Self, Mailroom<J>), AllocError>
        requires named { history.seen.book ≡ J.book }
        requires begins { history.seen.log ≡ Begins J.outside (configs_of setups.items) ∷ [] }
        ensures { IfOk result (λ r. r.0 ≡ setups.items) }
    {
        let mailboxes = Mailboxes::new(alloc, setups.len(), workers_of(setups.as_slice()))?;
        let outside = history.outside::<J>();
        let (front, seats) = history.seats::<J>(alloc)?;
        let running = Vec::with_capacity(alloc, setups.len())?;
        let ended = Vec::with_capacity(alloc, setups.len())?;
        let left = Vec::with_capacity(alloc, setups.len())?;
        let ready = Ready {
            setups,
            seats,
            front,
            running,
            ended,
            left,
        };
        let mailroom = Mailroom { mailboxes, outside };
        Ok((PreparedEdges { ready, alloc }, mailroom))
    }
}

/// Starts the edges, waits until `until` has returned and then until all their workers have ended.
#[tactic(auto, using(crate::proofs::Histories::ended))]
fn run_within<
    's,
    'x: 's,
    J: Naming + Send + Sync + 'x,
    I: LinkIn + Drop + Send + 'x,
    O: LinkOut + PromptOut + Drop + Send + 'x,
    G: Gate + Sync + 'x,
    R: Threads + Wait + Clock + Sync + 'x,
    F: FnOnce() -> T + Drop,
    T,
>(
    scope: &Scope<'s, &'x ()>,
    common: &SharedContext<'x, J, G, R>,
    ready: Ready<J, I, O>,
    until: F,
) -> (Vec<Ran>, T)
    requires { F.pre until }
    ensures each { AreRanFrom 1 ready result.0.items }
    ensures all { vec_len result.0 ≡ length ready }
    ensures until { F.post until result.1 }
    ensures history { IsHistoryOf J.outside (configs_of ready) result.0.items }
{
    let Ready {
        setups,
        seats,
        front,
        running,
        ended,
        left,
    } = ready;
    let running = start_edges(scope, common, setups, seats, running);
    let told = until();
    let (ended, left) = join_edges::<J, O, R>(common.rt, running, ended, left);
    let all = all_seen(front, left.as_slice());
    settle_all(common.rt, &all, left.as_slice());
    (ended, told)
}

/// Runs the edges until `until` has returned and all their workers have ended.
fn run_ready<
    'x,
    J: Naming + Send + Sync + 'x,
    I: LinkIn + Drop + Send + 'x,
    O: LinkOut + PromptOut + Drop + Send + 'x,
    G: Gate + Sync + 'x,
    R: Threads + Wait + Clock + Sync + 'x,
    F: FnOnce() -> T + Drop,
    T,
>(common: SharedContext<'x, J, G, R>, ready: Ready<J, I, O>, until: F) -> (Vec<Ran>, T)
    requires { F.pre until }
    ensures each { AreRanFrom 1 ready result.0.items }
    ensures all { vec_len result.0 ≡ length ready }
    ensures until { F.post until result.1 }
    ensures history { IsHistoryOf J.outside (configs_of ready) result.0.items }
{
    thread::scope(
        thread::scope_env(),
        common.rt,
        move |scope| -> (Vec<Ran>, T)
            requires { F.pre until }
            ensures each { AreRanFrom 1 ready result.0.items }
            ensures all { vec_len result.0 ≡ length ready }
            ensures until { F.post until result.1 }
            ensures history { IsHistoryOf J.outside (configs_of ready) result.0.items }
        { run_within(scope, &common, ready, until) },
    )
}

/// Runs edges beside each other, each on a thread with its workers, until `until` has returned and
/// the links have ended. The mailroom is the one that was made with them. `until` makes the links
/// end, and can query the edges meanwhile (`Mailroom::running`). The
/// outcomes are in the edges' order, with an error if an edge was refused memory or a thread
/// before it began. Alerts for the operator go to these boards, which get no more once it
/// returns. There is one history of all edges, which leads to these outcomes.
pub fn run_all<
    J: Naming + Send + Sync,
    I: LinkIn + Drop + Send,
    O: LinkOut + PromptOut + Drop + Send,
    G: Gate + Sync,
    R: Threads + Wait + Clock + Sync,
    F: FnOnce() -> T + Drop,
    T,
>(
    rt: &R,
    start: PreparedEdges<J, I, O>,
    mailroom: &Mailroom<J>,
    boards: &Boards,
    gate: &G,
    until: F,
) -> (Vec<Ran>, T)
    requires { F.pre until }
    ensures each { AreRanFrom 1 start result.0.items }
    ensures all { vec_len result.0 ≡ length start }
    ensures until { F.post until result.1 }
    ensures history { IsHistoryOf J.outside (configs_of start) result.0.items }
{
    let PreparedEdges { ready, alloc } = start;
    let common = SharedContext {
        rt,
        alloc,
        gate,
        mailboxes: &mailroom.mailboxes,
        boards,
    };
    let ran = run_ready(common, ready, until);
    boards.end(rt);
    ran
}
