//! Edges that carry frames until the input ends: each at its address and UDP port 4789, its access
//! ports at sockets of their own. Alerts for the operator are written meanwhile.
#![tactic(auto, using(ether_wire::proofs::Appending::with_text_twice, ether_wire::proofs::Appending::with_text_none))]

ghost use Rattle.std.specs.Prelude.{◌≡◌, ◌+◌, ◌-◌, ◌^◌, ◌||◌, min, not, nat_lt, is_some, false, length, map, reverse, vec_len, IfOk, OnOk, OnErr, MatchOption};
ghost use Rattle.std.specs.List.{list_any};
ghost use Rattle.ether_wire.specs.Ends.{IsOpen, Allows};
ghost use Rattle.ev_fabric.specs.Opening.{AreConfigs};
ghost use Rattle.ev_edge.specs.Config.{IsConfig};
ghost use Rattle.ev_report.specs.Ends.{Holds, devices};
ghost use Rattle.ev_run.specs.Inner.Sockets.{bound_at, sent_to};
ghost use Rattle.ev_run.specs.Links.{begun_of, destinations_of, sends_to};
ghost use Rattle.ev_run.specs.Sockets.{all_remotes, endpoints_of, lacks_address};
ghost use Rattle.ev_run.specs.RunEdges.{ReadsOut, sends_failed, link_failed, was_out_of_memory, all_lost, system_text, noted_text, Ran, start_text, Begins, RunsEdges};
ghost use Rattle.ev_run.specs.Inner.RunEdges.{EachConfig, PutsRest, TellsMeanwhile, TellsRest};
ghost use Rattle.ev_report.specs.declared.status.Status.TheVariants as statuses;

use crate::begun::{begun_in, first_incarnation};
use crate::bound::Sockets;
use crate::clients::Service;
use crate::links::links_of;
use crate::named::{Ends, Prepared, run_named};
use crate::print::{Watched, put_notes, put_reports};
use crate::socket_drops::SocketDrops;
use crate::sockets::{StartError, bind_all, put_bind_error, put_no_device};
use crate::system::{Runtime, System};
use crate::system_drops::{UdpTable, rows_of_drops};
use crate::thread_check::{ThreadPolicy, check_threads, stopped_by};
use ether_wire::{Device, In, Out};
use ev_config::Config;
use ev_edge::EdgeConfig;
use ev_links::{Wire, WireOut};
use ev_mailboxes::{Boards, NoticeBox, notice_worker};
use ev_peers::{EdgeOutcome, Setup, new_history};
use ev_report::{MOST_READS, Status, status_of};
use std::alloc::{AllocError, Global};
use std::marker::Brand;
use std::sync::Wait;
use std::sync::atomic::AtomicBool;
use std::thread::Threads;
use std::time::Clock;

/// An edge over sockets, ready to run.
pub(crate) type Ready<'x, R> = Setup<Wire<'x, R>, WireOut<'x>>;

/// Reads up to the end and ignores the octets. Returns `true` if no read failed and the end came
/// within 2^40 reads.
pub(crate) fn is_read_out<E: In>(reader: &mut E) -> bool
    requires { Allows (2 ^ 40) (E.end reader.old) }
    ensures { ReadsOut (E.end reader.old) (E.end reader.new) result }
{
    let mut buffer = [0; 4096];
    for turn in 0..MOST_READS {
        let _ = turn;
        match reader.read(&mut buffer) {
            Ok(0) => return true,
            Ok(n) => {
                let _ = n;
            }
            Err(Device) => return false,
        }
    }
    false
}

/// Returns an edge over these sockets. Each of its ports sends to the port's remote endpoint.
fn ready<'x, R: Clock>(
    rt: &'x R,
    alloc: Global,
    config: EdgeConfig,
    sockets: &'x Sockets,
    stop: &'x AtomicBool,
) -> Result<Ready<'x, R>, AllocError>
    requires { IsConfig config }
    ensures config { IfOk result (λ setup. setup.config ≡ config) }
    ensures sends { IfOk result
        (λ setup. destinations_of setup ≡ map sends_to (sent_to sockets.now)) }
{
    Ok(Setup::new(config, links_of(rt, alloc, sockets, stop)?))
}

/// Returns these values, the last one first.
fn in_reverse<T: Drop>(values: Vec<T>) -> Vec<T>
    ensures items { result.items ≡ reverse values.items }
    ensures len { vec_len result ≡ vec_len values }
{
    let mut values = values;
    values.as_mut_slice().reverse();
    values
}

/// Returns all edges over their sockets, in this incarnation if their configuration names none.
fn all_ready<'x, R: Clock>(
    rt: &'x R,
    alloc: Global,
    incarnation: u32,
    configs: Vec<EdgeConfig>,
    all: &'x [Sockets],
    stop: &'x AtomicBool,
) -> Result<Vec<Ready<'x, R>>, AllocError>
    requires configs { EachConfig configs.items }
    requires sockets { length all.now ≡ vec_len configs }
    ensures many { IfOk result (λ setups. vec_len setups ≡ vec_len configs) }
    ensures begun { IfOk result (λ setups. map (λ setup. setup.config) setups.items
        ≡ map (begun_of incarnation) configs.items) }
    ensures sends { IfOk result (λ setups. map destinations_of setups.items
        ≡ map (λ sockets. map sends_to (sent_to sockets)) all.now) }
{
    let mut configs = configs;
    let mut setups = Vec::with_capacity(alloc, configs.len())?;
    while let Some(config) = configs.pop() {
        let sockets = &all[configs.len()];
        let config = begun_in(config, incarnation);
        setups.push(ready(rt, alloc, config, sockets, stop)?)?;
    }
    Ok(in_reverse(setups))
}

/// The faults of the workers of all edges.
#[derive(Clone, Copy)]
struct Sum {
    /// The number of sends that failed.
    lost: u64,
    /// `true` if a link failed.
    is_device: bool,
    /// `true` if memory or a thread was refused.
    is_out_of_memory: bool,
}

impl Sum {
    /// Returns this sum with the faults of one more edge.
    fn with(self, ended: &Result<EdgeOutcome, AllocError>) -> Self
        ensures lost { result.lost ≡ min (self.lost + sends_failed ended.now) (2 ^ 64 - 1) }
        ensures device { result.is_device ≡ (self.is_device || link_failed ended.now) }
        ensures out_of_memory { result.is_out_of_memory
            ≡ (self.is_out_of_memory || was_out_of_memory ended.now) }
    {
        match ended {
            Ok(outcome) => Sum {
                lost: self.lost.saturating_add(outcome.faults.lost),
                is_device: self.is_device || outcome.faults.device,
                is_out_of_memory: self.is_out_of_memory || outcome.faults.memory,
            },
            Err(_) => Sum {
                lost: self.lost,
                is_device: self.is_device,
                is_out_of_memory: true,
            },
        }
    }
}

/// Returns the sum of the faults of these edges.
fn sum_of(ended: &[Result<EdgeOutcome, AllocError>]) -> Sum
    ensures lost { result.lost ≡ all_lost ended.now }
    ensures device { result.is_device ≡ list_any link_failed ended.now }
    ensures out_of_memory { result.is_out_of_memory ≡ list_any was_out_of_memory ended.now }
{
    let mut sum = Sum {
        lost: 0,
        is_device: false,
        is_out_of_memory: false,
    };
    for outcome in ended {
        sum = sum.with(outcome);
    }
    sum
}

/// Returns `true` if a device failed.
fn has_failed(sum: Sum, is_read: bool, is_told: bool, is_noted: bool) -> bool
    ensures { result
        ≡ (((not is_read || sum.is_device) || nat_lt 0 sum.lost) || (not is_told || not is_noted)) }
{
    !is_read || sum.is_device || sum.lost > 0 || !is_told || !is_noted
}

/// Writes the notes of the end, unless a call of the writer has failed before.
fn put_rest<N: Out>(
    notes: &mut N,
    told: Result<(), Device>,
    ended: &[Result<EdgeOutcome, AllocError>],
    watched: Watched<'_>,
    lost: u64,
) -> Result<(), Device>
    ensures { PutsRest told (N.end notes.old) (N.end notes.new) (noted_text ended.now
        (system_text watched.entry.table.now (map bound_at watched.entry.sockets.now)) lost)
        result }
{
    match told {
        Ok(()) => put_notes(notes, ended, watched, lost),
        Err(device) => Err(device),
    }
}

/// Writes the results of the edges, and returns the status. `told` is the result of the alerts,
/// which were written while the edges ran.
fn tell_ended<W: Out, N: Out>(
    told: Result<(), Device>,
    ended: &[Result<EdgeOutcome, AllocError>],
    watched: Watched<'_>,
    is_read: bool,
    out: &mut W,
    notes: &mut N,
) -> Status
    requires { IsOpen (W.end out.old) }
    ensures { TellsRest told ended.now
        (system_text watched.entry.table.now (map bound_at watched.entry.sockets.now)) is_read
        (W.end out.old) (W.end out.new) (N.end notes.old) (N.end notes.new) result }
{
    let sum = sum_of(ended);
    let is_told = put_reports(out, ended).is_ok();
    let is_noted = put_rest(notes, told, ended, watched, sum.lost).is_ok();
    let has_failed = has_failed(sum, is_read, is_told, is_noted);
    status_of(has_failed, sum.is_out_of_memory, false)
}

/// Writes the alerts of these boards for the operator, until no more can come.
pub(crate) fn tell_meanwhile<R: Wait, N: Out>(
    rt: &R,
    boards: &Boards,
    notes: &mut N,
) -> Result<(), Device>
    ensures { TellsMeanwhile (N.end notes.old) (N.end notes.new) result }
{
    let mut notices = NoticeBox { rt, boards };
    notice_worker(rt, &mut notices, notes)
}

/// The environment in which edges run.
#[derive(Drop)]
pub(crate) struct RunContext<'x, R> {
    /// The runtime, which waits, starts threads, and has sockets and a clock.
    pub(crate) rt: &'x R,
    /// The allocator.
    pub(crate) alloc: Global,
    /// The service for clients, if they may query the edges.
    pub(crate) service: Option<&'x Service>,
}

impl<'x, R> RunContext<'x, R> {
    /// Returns these as one value.
    pub(crate) fn new(rt: &'x R, alloc: Global, service: Option<&'x Service>) -> Self
        ensures { is_some result.service ≡ is_some service.entry }
    {
        RunContext { rt, alloc, service }
    }
}

/// Runs the edges of a configuration over these sockets until the reader ends. Clients of a control
/// socket may query them meanwhile.
///
/// # Errors
///
/// `AllocError` if memory is refused before an edge has begun.
fn run_bound<'x, 'h: 'x, R: Threads + Wait + UdpTable + Clock + Sync, E: In, W: Out, N: Out + Send>(
    host: &RunContext<'h, R>,
    configs: Vec<EdgeConfig>,
    sockets: &'x [Sockets],
    reader: &mut E,
    out: &mut W,
    notes: &mut N,
) -> Result<Status, AllocError>
    requires configs { AreConfigs configs.items }
    requires sockets { length sockets.now ≡ vec_len configs }
    requires reader { Allows (2 ^ 40) (E.end reader.old) }
    requires out { IsOpen (W.end out.old) }
    requires notes { IsOpen (N.end notes.old) }
    ensures ran { IfOk result
        (λ status. Ran (is_some host.now.service) configs.items (map bound_at sockets.now)
        (map sent_to sockets.now)
        (devices (E.end reader.old) (W.end out.old) (N.end notes.old))
        (devices (E.end reader.new) (W.end out.new) (N.end notes.new)) status) }
    ensures out { OnErr result (W.end out.new ≡ W.end out.old) }
    ensures notes { OnErr result (N.end notes.new ≡ N.end notes.old) }
{
    let (rt, alloc) = (host.rt, host.alloc);
    let stop = AtomicBool::new(false);
    let is_asked = host.service.is_some();
    let incarnation = first_incarnation(rt, is_asked);
    let setups = all_ready(rt, alloc, incarnation, configs, sockets, &stop)?;
    let history = new_history(setups.as_slice(), is_asked);
    let system = SocketDrops { rt, sockets };
    let prepared = Prepared {
        setups,
        history,
        ends: Ends {
            sockets,
            stop: &stop,
            system: &system,
        },
    };
    let (told, (ended, is_read)) = run_named::<Brand, R, SocketDrops<'_, R>, E, N>(
        host, prepared, reader, notes,
    )?;
    let table = rows_of_drops(rt, alloc);
    let watched = Watched {
        table: table.as_slice(),
        sockets,
    };
    Ok(tell_ended(told, ended.as_slice(), watched, is_read, out, notes))
}

/// Writes why no edge begins, and returns the status.
fn tell_start_error<N: Out>(start_error: StartError, notes: &mut N) -> Status
    requires { IsOpen (N.end notes.old) }
    ensures { MatchOption (start_text start_error)
        ((N.end notes.new ≡ N.end notes.old) × (result ≡ statuses.Memory))
        (λ text. Holds (N.end notes.old) (N.end notes.new) text × (result ≡ statuses.Device)) }
{
    match start_error {
        StartError::Unbindable(at, why) => {
            let _ = put_bind_error(notes, at, why);
            Status::Device
        }
        StartError::Unattached(name, why) => {
            let _ = put_no_device(notes, name, why);
            Status::Device
        }
        StartError::Unnamed => Status::Device,
        StartError::NoMemory => Status::Memory,
    }
}

/// Runs the edges of a configuration over these sockets, or returns the status if memory is refused
/// before an edge has begun.
fn begin<'h, R: Threads + Wait + UdpTable + Clock + Sync, E: In, W: Out, N: Out + Send>(
    host: &RunContext<'h, R>,
    config: Config,
    sockets: &[Sockets],
    reader: &mut E,
    out: &mut W,
    notes: &mut N,
) -> Status
    requires config { AreConfigs config.edges.items }
    requires many { length sockets.now ≡ vec_len config.edges }
    requires bound { map bound_at sockets.now ≡ endpoints_of config }
    requires remotes { map sent_to sockets.now ≡ all_remotes config.links.items }
    requires addresses { lacks_address config ≡ false }
    requires reader { Allows (2 ^ 40) (E.end reader.old) }
    requires out { IsOpen (W.end out.old) }
    requires notes { IsOpen (N.end notes.old) }
    ensures { Begins (is_some host.now.service) config
        (devices (E.end reader.old) (W.end out.old) (N.end notes.old))
        (devices (E.end reader.new) (W.end out.new) (N.end notes.new)) result }
{
    let Config { edges, links: _ } = config;
    match run_bound(host, edges, sockets, reader, out, notes) {
        Ok(status) => status,
        Err(_) => Status::Memory,
    }
}

/// Runs edges as `run_edges` does, with or without a control socket whose clients may query them
/// meanwhile.
pub(crate) fn run_asked<R: Runtime, E: In, W: Out, N: Out + Send>(
    host: &RunContext<'_, R>,
    policy: ThreadPolicy,
    config: Config,
    reader: &mut E,
    out: &mut W,
    notes: &mut N,
) -> Status
    requires config { AreConfigs config.edges.items }
    requires reader { Allows (2 ^ 40) (E.end reader.old) }
    requires out { IsOpen (W.end out.old) }
    requires notes { IsOpen (N.end notes.old) }
    ensures { RunsEdges (is_some host.now.service) policy config
        (devices (E.end reader.old) (W.end out.old) (N.end notes.old))
        (devices (E.end reader.new) (W.end out.new) (N.end notes.new)) result }
{
    let sockets = match bind_all(host.rt, host.alloc, &config) {
        Ok(sockets) => sockets,
        Err(start_error) => return tell_start_error(start_error, notes),
    };
    let sockets = sockets.as_slice();
    match check_threads(host.rt, &config, host.service.is_some()) {
        Ok(()) => begin(host, config, sockets, reader, out, notes),
        Err(lack) => match stopped_by(policy, lack, notes) {
            Some(status) => status,
            None => begin(host, config, sockets, reader, out, notes),
        },
    }
}

/// Runs the edges of a configuration, each on a thread with its workers, until the reader ends.
/// Ignores the octets that are read. Then writes `edge E` and the report of each edge. On `notes`
/// it writes a line for each link that had no room for frames, a line for each link at whose socket
/// the system had no room, if the system reports that, and `lost N` if N sends failed. While the
/// edges run, it writes a line on `notes` for each alert that isn't held back, until a call of
/// `notes` fails.
///
/// Returns the greatest status that applies: 4 if a device failed, which may be a reader, a writer,
/// a link or a socket that can't be bound; 3 if memory or a thread was refused; else 0. If a socket
/// can't be bound, no edge begins, and a line on `notes` has the address and the reason. If the
/// system doesn't start as many threads as the run needs, a line on `notes` has both numbers, and
/// no edge begins unless the policy of `system` allows it. If a port lacks an address, no edge
/// begins either, and nothing is written.
pub fn run_edges<R: Runtime, E: In, W: Out, N: Out + Send>(
    system: &System<'_, R>,
    config: Config,
    reader: &mut E,
    out: &mut W,
    notes: &mut N,
) -> Status
    requires config { AreConfigs config.edges.items }
    requires reader { Allows (2 ^ 40) (E.end reader.old) }
    requires out { IsOpen (W.end out.old) }
    requires notes { IsOpen (N.end notes.old) }
    ensures { RunsEdges false system.now.policy config
        (devices (E.end reader.old) (W.end out.old) (N.end notes.old))
        (devices (E.end reader.new) (W.end out.new) (N.end notes.new)) result }
{
    let host = RunContext::new(system.rt, system.alloc, None);
    run_asked(&host, system.policy, config, reader, out, notes)
}
