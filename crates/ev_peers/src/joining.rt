//! Waits for the threads of edges that run beside each other.
ghost use Rattle.std.specs.Prelude.{◌≡◌, ℕ, ◌≤◌, List, length, reverse, vec_len, vec_capacity};
ghost use Rattle.ev_peers.specs.EdgeThreads.{EdgeSetup, IsRanOf, AreRanFrom};
ghost use Rattle.ev_peers.specs.History.{outcome_in};
ghost use Rattle.ev_peers.specs.Inner.History.{SeatedAs, AreSeated, seat_in};
ghost use Rattle.ev_peers.specs.Inner.Handles.{IsHandle, AreHandles};

use crate::run::{Handle, Ran, SeatedRan};
use ev_book::{Naming, Seat};
use std::alloc::AllocError;
use std::thread::Threads;

/// Waits for the thread of an edge. Returns `AllocError` if the thread was refused.
fn join_edge<J: Naming, O: Drop, R: Threads>(rt: &R, handle: Handle<J>) -> SeatedRan<J>
    ensures { (number : ℕ) (setup : EdgeSetup O) → IsHandle number setup handle
        → IsRanOf number setup.config.address (length setup.outputs) (outcome_in result)
        × SeatedAs number result }
{
    match handle {
        Some(handle) => handle.join(rt),
        None => Err(AllocError),
    }
}

/// Parts the outcome of an edge from its seat.
fn parted<J: Naming>(ran: SeatedRan<J>) -> (Ran, Option<Seat<J>>)
    ensures ran { result.0 ≡ outcome_in ran }
    ensures seat { result.1 ≡ seat_in ran }
{
    match ran {
        Ok((outcome, seat)) => (Ok(outcome), Some(seat)),
        Err(refused) => (Err(refused), None),
    }
}

/// The results of edges, in the edges' order, and their seats.
pub(crate) type Ended<J> = (Vec<Ran>, Vec<Option<Seat<J>>>);

/// Waits for the threads of all edges, which were started the last one first. Returns the results
/// in the edges' order.
pub(crate) fn join_edges<J: Naming, O: Drop, R: Threads>(
    rt: &R,
    running: Vec<Handle<J>>,
    ended: Vec<Ran>,
    left: Vec<Option<Seat<J>>>,
) -> Ended<J>
    requires ended { (vec_len ended ≡ 0) × (vec_len running ≤ vec_capacity ended) }
    requires left { (vec_len left ≡ 0) × (vec_len running ≤ vec_capacity left) }
    ensures len { vec_len result.0 ≡ vec_len running }
    ensures each { (setups : List (EdgeSetup O)) → AreHandles 0 (reverse setups) running.items
        → AreRanFrom 1 setups result.0.items }
    ensures seated { (setups : List (EdgeSetup O)) → AreHandles 0 (reverse setups) running.items
        → AreSeated 0 result.0.items result.1.items }
{
    let mut running = running;
    let mut ended = ended;
    let mut left = left;
    while let Some(handle) = running.pop() {
        let (ran, seat) = parted(join_edge::<J, O, R>(rt, handle));
        ended.push_reserved(ran);
        left.push_reserved(seat);
    }
    (ended, left)
}
