//! The check before a run that the system starts as many threads as the run needs.
#![tactic(auto, using(ether_wire::proofs::Appending::with_text_twice, ether_wire::proofs::Appending::with_text_none))]

ghost use Rattle.std.specs.Prelude.{◌≡◌, ◌≤◌, true, false, IfErr, MatchOption};
ghost use Rattle.ether_wire.specs.Ends.{IsOpen, Puts, with_text};
ghost use Rattle.ev_run.specs.Needs.{threads_of};
ghost use Rattle.ev_run.specs.ThreadCheck.{allowed_text, too_few_text, IsTooFew};
ghost use Rattle.ev_report.specs.Ends.{Holds, has_failed};
ghost use Rattle.ev_report.specs.Notes.{status_of};
ghost use Rattle.ev_report.specs.declared.status.Status.TheVariants as statuses;

use crate::needs::threads_of;
use crate::settling::{counted_threads, settle};
use ether_wire::{Device, Out, put_decimal};
use ev_config::Config;
use ev_report::Status;
use std::fs::Files;
use std::sync::{Mutex, Wait};
use std::thread;
use std::thread::{Scope, Threads};
use std::time::Clock;

/// What a run does if the system refuses threads.
#[derive(Clone, Copy, Debug, PartialEq, Eq)]
pub enum ThreadPolicy {
    /// No edge begins.
    RequireAll,
    /// The edges begin with the threads that there are.
    RunWithout,
}

/// A refusal of threads. Both numbers count the thread that runs the check.
#[derive(Clone, Copy, Debug, PartialEq, Eq)]
pub(crate) struct TooFewThreads {
    /// The number of threads that the run needs.
    pub(crate) needed: u64,
    /// The number of threads that the system allowed.
    pub(crate) allowed: u64,
}

/// Waits until the gate is open.
fn pass<R: Wait>(rt: &R, gate: &Mutex<()>) {
    drop(gate.lock(rt));
}

/// Starts threads that wait at a gate: `most` threads, or fewer if the system refuses one. Returns
/// the number of threads that it started.
fn start_each<'s, 'x: 's, R: Wait + Sync>(
    scope: &Scope<'s, &'x ()>,
    rt: &'x R,
    gate: &'x Mutex<()>,
    most: u64,
) -> u64
    ensures { result ≤ most }
{
    for started in 0..most {
        if scope.spawn(move || pass(rt, gate)).is_err() {
            return started;
        }
    }
    most
}

/// Starts threads as `start_each` does while the gate is closed, and then opens the gate. So all
/// threads run at the same time.
fn start_at_once<'s, 'x: 's, R: Wait + Sync>(
    scope: &Scope<'s, &'x ()>,
    rt: &'x R,
    gate: &'x Mutex<()>,
    most: u64,
) -> u64
    ensures { result ≤ most }
{
    let closed = gate.lock(rt);
    let started = start_each(scope, rt, gate, most);
    drop(closed);
    started
}

/// Starts threads as `start_at_once` does, and returns once all of them have passed the gate.
fn start_in_scope<'x, R: Threads + Wait + Sync>(rt: &'x R, gate: &'x Mutex<()>, most: u64) -> u64
    ensures { result ≤ most }
{
    thread::scope(
        thread::scope_env(),
        rt,
        move |scope| -> u64
            ensures { result ≤ most }
        { start_at_once(scope, rt, gate, most) },
    )
}

/// Returns how many threads the system starts beside this one, up to `most`. None of them runs any
/// more when the function returns, and the system counts none of them, as far as it reports that.
fn startable<R: Threads + Wait + Files + Clock + Sync>(rt: &R, most: u64) -> u64
    ensures { result ≤ most }
{
    let before = counted_threads(rt);
    let gate = Mutex::new(());
    let started = start_in_scope(rt, &gate, most);
    settle(rt, before);
    started
}

/// Checks that the system starts as many threads as a run needs, with the one that accepts clients
/// if `is_asked`.
///
/// # Errors
///
/// `TooFewThreads` if the system refuses one.
pub(crate) fn check_threads<R: Threads + Wait + Files + Clock + Sync>(
    rt: &R,
    config: &Config,
    is_asked: bool,
) -> Result<(), TooFewThreads>
    ensures { IfErr result (λ lack. IsTooFew (threads_of is_asked config.now.edges.items) lack) }
{
    let needed = threads_of(config, is_asked);
    let allowed = startable(rt, needed.saturating_sub(1)).saturating_add(1);
    if allowed < needed {
        return Err(TooFewThreads { needed, allowed });
    }
    Ok(())
}

/// Writes how many threads the system allowed, and what to do.
fn put_allowed<N: Out>(notes: &mut N, allowed: u64) -> Result<(), Device>
    ensures { Puts (N.end notes.old) (N.end notes.new) (allowed_text allowed) result }
{
    notes.put(b" threads: the system allows ")?;
    put_decimal(notes, allowed)?;
    notes.put(b"; raise ulimit -u or TasksMax, or free memory\n")
}

/// Writes that the system allows too few threads.
fn put_too_few<N: Out>(notes: &mut N, lack: TooFewThreads) -> Result<(), Device>
    ensures { Puts (N.end notes.old) (N.end notes.new) (too_few_text lack) result }
{
    notes.put(b"can't start ")?;
    put_decimal(notes, lack.needed)?;
    put_allowed(notes, lack.allowed)
}

/// Writes that the system allows too few threads. Returns the status if no edge may begin: by the
/// policy, or since writing failed.
pub(crate) fn stopped_by<N: Out>(
    policy: ThreadPolicy,
    lack: TooFewThreads,
    notes: &mut N,
) -> Option<Status>
    requires { IsOpen (N.end notes.old) }
    ensures { MatchOption result
        ((N.end notes.new ≡ with_text (N.end notes.old) (too_few_text lack))
        × (policy ≡ ThreadPolicy.RunWithout))
        (λ status. Holds (N.end notes.old) (N.end notes.new) (too_few_text lack)
        × (status ≡ status_of (has_failed (N.end notes.old) (N.end notes.new)) true false)
        × (policy ≡ ThreadPolicy.RunWithout → status ≡ statuses.Device)) }
{
    match put_too_few(notes, lack) {
        Err(Device) => Some(Status::Device),
        Ok(()) => match policy {
            ThreadPolicy::RequireAll => Some(Status::Memory),
            ThreadPolicy::RunWithout => None,
        },
    }
}
