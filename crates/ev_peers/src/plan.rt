//! Prepares the threads of an edge: the link of each thread, the shared data, and room for the
//! threads and their results. It allocates everything before the first thread starts.
ghost use Rattle.std.specs.Prelude.{◌≡◌, ◌+◌, ◌<◌, ◌≤◌, ◌∷◌, [], ◌++◌, length, reverse, vec_len, vec_capacity, IfOk};
ghost use Rattle.ev_peers.specs.Inner.EdgeThreads.{HasRoom};
ghost use Rattle.ev_peers.specs.Inner.Plan.{source_of, vni_at, port_tasks, tasks_of, outputs_back, outputs_of};
ghost use Rattle.ev_peers.specs.declared.plan.Task.TheVariants.{Port, Tunnel, Clock};

use crate::edge_links::{EdgeLinks, Link};
use crate::edge_outcome::Sent;
use crate::shared_edge::Ended;
use crate::shared_line::SharedLine;
use ether_wire::Vni;
use ev_book::Pass;
use ev_edge::EdgeConfig;
use ev_links::PromptOut;
use std::alloc::{AllocError, Global};
use std::sync::atomic::AtomicBool;
use std::sync::ledger::Ledger;
use std::thread::JoinHandle;

/// The result of a thread that enters events.
pub(crate) type Entered<L> = (Pass<L>, Ended);

/// The events that a worker enters.
#[derive(Drop)]
pub(crate) enum Task<I: Drop> {
    /// The frames that come over this link at the port with this number, of this network.
    Port(u8, Vni, I),
    /// The datagrams that come over this link.
    Tunnel(I),
    /// The ticks of this clock.
    Clock(I),
    /// The records of the other edges.
    Peer,
}

/// Returns the place of the link over which a task's datagrams come: that of a port is its number.
/// Tasks without frames have the place of the tunnel.
pub(crate) fn source_of<I: Drop>(task: &Task<I>) -> usize
    ensures { result ≡ source_of task.now }
{
    match task {
        Task::Port(port, _, _) => *port as usize,
        Task::Tunnel(_) | Task::Clock(_) | Task::Peer => 0,
    }
}

/// The data that the threads of an edge share.
#[derive(Drop)]
pub(crate) struct Shared<K> {
    /// The line to the tunnel's link, then the lines to the links of the ports, port 1 first.
    pub(crate) lines: Vec<SharedLine<K>>,
    /// For each task, whether it got no thread.
    pub(crate) no_entering: Vec<AtomicBool>,
    /// For each link that is sent over, whether it got no thread.
    pub(crate) no_sending: Vec<AtomicBool>,
    /// Whether the records of other edges got no thread.
    pub(crate) no_peer: AtomicBool,
    /// Whether a call of the book was refused memory.
    pub(crate) out_of_memory: AtomicBool,
}

/// The threads that enter events.
#[derive(Drop)]
pub(crate) struct Entering<L: Ledger> {
    /// The threads that run.
    pub(crate) running: Vec<JoinHandle<Entered<L>>>,
    /// The passes that they returned.
    pub(crate) passes: Vec<Pass<L>>,
}

/// The arguments and the results of an edge's threads, with room for all of them, so that
/// starting and joining the threads allocates nothing.
#[derive(Drop)]
pub(crate) struct EdgeThreads<L: Ledger, I: Drop, O: Drop> {
    /// The tasks of the clock, of the tunnel, and of the ports from the last
    /// to the first.
    pub(crate) tasks: Vec<Task<I>>,
    /// The links to send over: the tunnel's, then those of the ports, port 1 first.
    pub(crate) outputs: Vec<O>,
    /// Room for the threads that enter events, and for the passes that they return.
    pub(crate) entering: Entering<L>,
    /// Room for the threads that send.
    pub(crate) sending: Vec<JoinHandle<Sent>>,
}

/// Returns an empty line to each of these links, which gets a handle of the link. Each line has a
/// part for each link.
fn empty_lines<K: PromptOut>(alloc: Global, links: &[K]) -> Result<Vec<SharedLine<K>>, AllocError>
    ensures { IfOk result (λ lines. vec_len lines ≡ length links.now) }
{
    let mut lines = Vec::with_capacity(alloc, links.len())?;
    for link in links {
        lines.push_reserved(SharedLine::new(alloc, link.clone()?, links.len())?);
    }
    Ok(lines)
}

/// Returns `count` flags that are `false`.
fn no_words(alloc: Global, count: usize) -> Result<Vec<AtomicBool>, AllocError>
    ensures { IfOk result (λ words. vec_len words ≡ count) }
{
    let mut words = Vec::with_capacity(alloc, count)?;
    for place in 0..count {
        let _ = place;
        words.push_reserved(AtomicBool::new(false));
    }
    Ok(words)
}

/// Returns the network of the port at a place, port 1 being at place 0.
fn vni_of(config: &EdgeConfig, place: usize) -> Vni
    ensures { result ≡ vni_at config.now.ports.items place }
{
    match config.ports.as_slice().get(place) {
        Some(config) => config.vni,
        None => Vni::default(),
    }
}

/// Returns the task of the port at a place, with its link.
fn task_of<I: Drop>(config: &EdgeConfig, place: usize, input: I) -> Task<I>
    requires { place < 253 }
    ensures { result ≡ Port (place + 1) (vni_at config.now.ports.items place) input }
{
    Task::Port(place as u8 + 1, vni_of(config, place), input)
}

/// Appends the tasks of these links, and their outputs, the last port first.
fn plan_ports<I: Drop, O: Drop>(
    config: &EdgeConfig,
    links: Vec<Link<I, O>>,
    tasks: Vec<Task<I>>,
    outputs: Vec<O>,
) -> (Vec<Task<I>>, Vec<O>)
    requires few { vec_len links ≤ 253 }
    requires tasks { vec_len tasks + vec_len links ≤ vec_capacity tasks }
    requires outputs { vec_len outputs + vec_len links ≤ vec_capacity outputs }
    ensures tasks { result.0.items
        ≡ tasks.items ++ port_tasks config.now.ports.items (reverse links.items) }
    ensures outputs { result.1.items ≡ outputs.items ++ outputs_back links.items }
    ensures tasks_len { vec_len result.0 ≡ vec_len tasks + vec_len links }
    ensures outputs_len { vec_len result.1 ≡ vec_len outputs + vec_len links }
    ensures outputs_room { vec_capacity result.1 ≡ vec_capacity outputs }
{
    let mut links = links;
    let mut tasks = tasks;
    let mut outputs = outputs;
    while let Some(link) = links.pop() {
        let Link { input, output } = link;
        tasks.push_reserved(task_of(config, links.len(), input));
        outputs.push_reserved(output);
    }
    (tasks, outputs)
}

/// Returns the tunnel's link, followed by the others from the last one on.
fn with_tunnel<O: Drop>(outputs: Vec<O>, tunnel: O) -> Vec<O>
    requires { vec_len outputs < vec_capacity outputs }
    ensures items { result.items ≡ tunnel ∷ reverse outputs.items }
    ensures len { vec_len result ≡ vec_len outputs + 1 }
{
    let mut outputs = outputs;
    outputs.push_reserved(tunnel);
    outputs.as_mut_slice().reverse();
    outputs
}

/// Returns the tasks of the clock and of the tunnel, with room for those of `count` ports.
fn first_tasks<I: Drop>(
    alloc: Global,
    count: usize,
    clock: I,
    tunnel: I,
) -> Result<Vec<Task<I>>, AllocError>
    requires { count ≤ 253 }
    ensures items { IfOk result (λ tasks. tasks.items ≡ Clock clock ∷ Tunnel tunnel ∷ []) }
    ensures len { IfOk result (λ tasks. vec_len tasks ≡ 2) }
    ensures room { IfOk result (λ tasks. 2 + count ≤ vec_capacity tasks) }
{
    let mut tasks = Vec::with_capacity(alloc, count + 2)?;
    tasks.push_reserved(Task::Clock(clock));
    tasks.push_reserved(Task::Tunnel(tunnel));
    Ok(tasks)
}

/// Returns room for `count` links over which threads send.
fn no_outputs<O: Drop>(alloc: Global, count: usize) -> Result<Vec<O>, AllocError>
    ensures items { IfOk result (λ outputs. outputs.items ≡ []) }
    ensures len { IfOk result (λ outputs. vec_len outputs ≡ 0) }
    ensures room { IfOk result (λ outputs. count ≤ vec_capacity outputs) }
{
    Vec::with_capacity(alloc, count)
}

/// Returns the tasks of these links, and the links over which threads send.
fn plan_links<I: Drop, O: Drop>(
    alloc: Global,
    links: EdgeLinks<I, O>,
    config: &EdgeConfig,
) -> Result<(Vec<Task<I>>, Vec<O>), AllocError>
    requires { vec_len links.ports ≤ 253 }
    ensures tasks { IfOk result (λ r. r.0.items
        ≡ tasks_of config.now.ports.items links.clock links.tunnel.input links.ports.items) }
    ensures outputs { IfOk result (λ r. r.1.items
        ≡ outputs_of links.tunnel.output links.ports.items) }
    ensures tasks_len { IfOk result (λ r. vec_len r.0 ≡ vec_len links.ports + 2) }
    ensures outputs_len { IfOk result (λ r. vec_len r.1 ≡ vec_len links.ports + 1) }
{
    let EdgeLinks {
        ports,
        tunnel,
        clock,
    } = links;
    let Link { input, output } = tunnel;
    let count = ports.len();
    let tasks = first_tasks(alloc, count, clock, input)?;
    let outputs = no_outputs(alloc, count + 1)?;
    let (tasks, outputs) = plan_ports(config, ports, tasks, outputs);
    Ok((tasks, with_tunnel(outputs, output)))
}

/// Prepares the threads of an edge with these links and ports.
pub(crate) fn planned<L: Ledger, I: Drop, O: PromptOut>(
    alloc: Global,
    links: EdgeLinks<I, O>,
    config: &EdgeConfig,
) -> Result<(EdgeThreads<L, I, O>, Shared<O>), AllocError>
    requires { vec_len links.ports ≤ 253 }
    ensures each_task { IfOk result (λ r. r.0.tasks.items
        ≡ tasks_of config.now.ports.items links.clock links.tunnel.input links.ports.items) }
    ensures each_output { IfOk result (λ r. r.0.outputs.items
        ≡ outputs_of links.tunnel.output links.ports.items) }
    ensures tasks { IfOk result (λ r. vec_len r.0.tasks ≡ vec_len links.ports + 2) }
    ensures no_entering { IfOk result (λ r. vec_len r.1.no_entering ≡ vec_len links.ports + 2) }
    ensures outputs { IfOk result (λ r. vec_len r.0.outputs ≡ vec_len links.ports + 1) }
    ensures no_sending { IfOk result (λ r. vec_len r.1.no_sending ≡ vec_len links.ports + 1) }
    ensures lines { IfOk result (λ r. vec_len r.1.lines ≡ vec_len links.ports + 1) }
    ensures room { IfOk result (λ r. HasRoom (vec_len r.0.tasks) (vec_len r.0.outputs)
        (vec_len r.0.entering.running) (vec_capacity r.0.entering.running) (vec_len r.0.sending)
        (vec_capacity r.0.sending) (vec_len r.0.entering.passes)
        (vec_capacity r.0.entering.passes)) }
{
    let count = links.ports.len();
    let (tasks, outputs) = plan_links(alloc, links, config)?;
    let shared = Shared {
        lines: empty_lines(alloc, outputs.as_slice())?,
        no_entering: no_words(alloc, count + 2)?,
        no_sending: no_words(alloc, count + 1)?,
        no_peer: AtomicBool::new(false),
        out_of_memory: AtomicBool::new(false),
    };
    let entering = Entering {
        running: Vec::with_capacity(alloc, count + 2)?,
        passes: Vec::with_capacity(alloc, count + 3)?,
    };
    let threads = EdgeThreads {
        tasks,
        outputs,
        entering,
        sending: Vec::with_capacity(alloc, count + 1)?,
    };
    Ok((threads, shared))
}
