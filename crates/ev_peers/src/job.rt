//! One of the edges that run beside each other.
ghost use Rattle.std.specs.Prelude.{length};
ghost use Rattle.ev_peers.specs.EdgeThreads.{IsRanOf};
ghost use Rattle.ev_peers.specs.History.{outcome_in};
ghost use Rattle.ev_peers.specs.Inner.History.{SeatedAs};

use crate::edge_threads::{EdgeContext, edge_worker};
use crate::gate::Gate;
use crate::outlet::report_refused;
use crate::run::{SeatedRan, Setup};
use ev_book::{Naming, Seat};
use ev_links::{LinkIn, LinkOut, PromptOut};
use std::marker::{Brand, Model};
use std::sync::Wait;
use std::sync::ledger::Blank;
use std::thread::Threads;
use std::time::Clock;

/// An edge that is about to run. Its model is its number and its setup.
#[derive(Drop)]
pub(crate) struct Job<'x, J: Naming, I: Drop, O: Drop, G, R> {
    /// The edge's surroundings.
    pub(crate) host: EdgeContext<'x, J, G, R>,
    /// The edge's configuration and links.
    pub(crate) setup: Setup<I, O>,
    /// The edge's seat in the history.
    pub(crate) seat: Seat<J>,
}

impl<'x, J: Naming, I: Drop, O: Drop, G, R> Model for Job<'x, J, I, O, G, R> {
    ghost use Rattle.std.specs.Prelude.{◌≡◌, ◌+◌};
    ghost use Rattle.std.specs.Coded.{codes};
    ghost use Rattle.std.specs.FinMap.{code};
    ghost use Rattle.ev_peers.specs.EdgeThreads.{EdgeSetup};
    ghost use Rattle.ev_peers.specs.History.{IsSeatOf};
    ghost use Rattle.ev_peers.specs.Inner.Handles.{Numbered};

    ghost Value = { Numbered O };

    ghost coded = { Prim.hlevel (codes, code) };

    ghost view = { λ j. record { number = j.host.number; setup = j.setup } };

    ghost invariant = { λ j. IsSeatOf j.setup.config j.seat
        × (j.seat.place + 1 ≡ j.host.number) };
}

/// Runs one edge, under a ledger of its own.
pub(crate) fn run_one<
    J: Naming + Send + Sync,
    I: LinkIn + Drop + Send,
    O: LinkOut + PromptOut + Drop + Send,
    G: Gate + Sync,
    R: Threads + Wait + Clock + Sync,
>(job: Job<'_, J, I, O, G, R>) -> SeatedRan<J>
    ensures ran { IsRanOf job.entry.number job.entry.setup.config.address
        (length job.entry.setup.outputs) (outcome_in result) }
    ensures seated { SeatedAs job.entry.number result }
{
    let Job { host, setup, seat } = job;
    let Setup { config, links } = setup;
    let blank = Blank::new(links.ports.len() as u64 + 3);
    let (rt, peers) = (host.rt, host.peers);
    let ran = edge_worker::<Brand, J, I, O, G, R>(host, blank, seat, config, links);
    if ran.is_err() {
        report_refused(rt, peers);
    }
    peers.leave(rt);
    ran
}
