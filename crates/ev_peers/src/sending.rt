//! The threads of an edge that send over its links. Each sends the frames that wait on a line of
//! its own.
ghost use Rattle.std.specs.Prelude.{◌≡◌, ◌+◌, ◌≤◌, length, vec_len, vec_capacity};

use crate::edge_outcome::{Faults, Sent};
use crate::outlet::Senders;
use crate::packets::LineBox;
use crate::plan::Shared;
use crate::shared_edge::Ended;
use crate::shared_line::SharedLine;
use crate::workers::out_worker;
use ev_book::{Naming, Told};
use ev_links::{CountedLink, LinkOut, PromptOut};
use ev_mailboxes::{LinkCounts, Peers};
use std::sync::Wait;
use std::sync::atomic::{AtomicBool, Ordering};
use std::thread::{JoinHandle, Scope, Threads};
use std::time::Clock;

/// Runs the worker that sends over a link. Returns at once with `Ended::NoMemory` if the worker's
/// thread was refused.
fn send_all<O: LinkOut + PromptOut + Drop, R: Wait + Clock>(
    rt: &R,
    link: O,
    line: &SharedLine<O>,
    counts: Option<&LinkCounts>,
    is_refused: &AtomicBool,
) -> Sent {
    let cell = match counts {
        Some(counts) => Some(&counts.queued),
        None => None,
    };
    let mut link = CountedLink::new(link, cell);
    if is_refused.load(Ordering::SeqCst) {
        return (0, Ended::NoMemory);
    }
    let mut packets = LineBox { rt, line };
    (out_worker(rt, &mut link, &mut packets), Ended::End)
}

/// Starts a thread for each link that frames are sent over.
pub(crate) fn start_sending<
    's,
    'x: 's,
    J: Naming + 'x,
    O: LinkOut + PromptOut + Drop + Send + 'x,
    R: Wait + Clock + Sync + 'x,
>(
    scope: &Scope<'s, &'x ()>,
    rt: &'x R,
    shared: &'x Shared<O>,
    peers: Peers<'x, Told<J>>,
    outputs: Vec<O>,
    running: Vec<JoinHandle<Sent>>,
) -> (Vec<JoinHandle<Sent>>, Faults)
    requires lines { vec_len outputs ≤ vec_len shared.now.lines }
    requires words { vec_len outputs ≤ vec_len shared.now.no_sending }
    requires room { vec_len running + vec_len outputs ≤ vec_capacity running }
{
    let mut outputs = outputs;
    let mut running = running;
    let mut faults = Faults::none();
    while let Some(link) = outputs.pop() {
        let line = &shared.lines[outputs.len()];
        let counts = peers.link(outputs.len());
        let is_refused = &shared.no_sending[outputs.len()];
        match scope.spawn(move || send_all(rt, link, line, counts, is_refused)) {
            Ok(handle) => running.push_reserved(handle),
            Err(no_thread) => {
                is_refused.store(true, Ordering::SeqCst);
                faults = faults.with_lost((no_thread.value)());
            }
        }
    }
    (running, faults)
}

/// Ends the lines, so that the threads that send over links stop.
pub(crate) fn stop_sending<J: Naming, K: PromptOut, R: Wait + Clock>(
    outlet: &Senders<'_, J, K, R>,
) {
    for line in outlet.lines {
        line.end(outlet.rt);
    }
}

/// Waits for the threads that send.
pub(crate) fn join_sending<R: Threads>(rt: &R, running: Vec<JoinHandle<Sent>>) -> Faults {
    let mut running = running;
    let mut faults = Faults::none();
    while let Some(handle) = running.pop() {
        faults = faults.with_lost(handle.join(rt));
    }
    faults
}

/// Returns the number of frames that found no room, by line.
pub(crate) fn all_dropped<K: PromptOut, R: Wait>(
    rt: &R,
    lines: &[SharedLine<K>],
    dropped: Vec<u64>,
) -> Vec<u64>
    requires { (vec_len dropped ≡ 0) × (length lines.now ≤ vec_capacity dropped) }
    ensures { vec_len result ≡ length lines.now }
{
    let mut dropped = dropped;
    for line in lines {
        dropped.push_reserved(line.dropped(rt));
    }
    dropped
}
