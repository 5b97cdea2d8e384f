//! The outcome of an edge whose workers have ended, and their faults.
ghost use Rattle.std.specs.Prelude.{◌≡◌};
ghost use Rattle.ev_peers.specs.Inner.EdgeOutcome.{no_faults, both_faults, is_device, is_memory, with_end, with_memory, with_sent};

use crate::shared_edge::Ended;
use ether_wire::Addr;
use ev_book::Totals;
use ev_edge::Edge;

/// The outcome of an edge whose workers have ended.
#[derive(Drop)]
pub struct EdgeOutcome {
    /// The edge's number, from 1.
    pub number: usize,
    /// The address under which the edge spoke.
    pub address: Addr,
    /// The edge.
    pub edge: Edge,
    /// How many calls of each worker were counted.
    pub totals: Totals,
    /// The faults of its workers.
    pub faults: Faults,
    /// How many frames found no room: on the line of the tunnel, then on the lines of the
    /// ports, port 1 first.
    pub dropped: Vec<u64>,
}

/// The faults of the workers of an edge.
#[derive(Clone, Copy, Debug, PartialEq, Eq)]
pub struct Faults {
    /// How many frames were lost in failed calls of links.
    pub lost: u64,
    /// Whether the link of a worker failed.
    pub device: bool,
    /// Whether the book was refused memory for an event, or a worker its thread.
    pub memory: bool,
}

/// The result of a thread that sends frames: how many were lost, and whether there was a thread.
pub(crate) type Sent = (u64, Ended);

/// Returns `true` if a worker ended because its link failed.
fn is_device(ended: Ended) -> bool
    ensures { result ≡ is_device ended }
{
    match ended {
        Ended::Device => true,
        Ended::End | Ended::NoMemory => false,
    }
}

/// Returns `true` if a worker was refused its thread.
fn is_memory(ended: Ended) -> bool
    ensures { result ≡ is_memory ended }
{
    match ended {
        Ended::NoMemory => true,
        Ended::End | Ended::Device => false,
    }
}

impl Faults {
    /// Returns the faults of workers that ended without one.
    pub(crate) fn none() -> Self
        ensures { result ≡ no_faults }
    {
        Faults {
            lost: 0,
            device: false,
            memory: false,
        }
    }

    /// Returns the faults of both.
    pub(crate) fn and(self, other: Faults) -> Self
        ensures { result ≡ both_faults self other }
    {
        Faults {
            lost: self.lost.saturating_add(other.lost),
            device: self.device || other.device,
            memory: self.memory || other.memory,
        }
    }

    /// Adds the end of one more worker.
    pub(crate) fn with(self, ended: Ended) -> Self
        ensures { result ≡ with_end ended self }
    {
        Faults {
            lost: self.lost,
            device: self.device || is_device(ended),
            memory: self.memory || is_memory(ended),
        }
    }

    /// Adds whether a call of the book was refused memory.
    pub(crate) fn with_out_of_memory(self, out_of_memory: bool) -> Self
        ensures { result ≡ with_memory out_of_memory self }
    {
        Faults {
            memory: self.memory || out_of_memory,
            ..self
        }
    }

    /// Adds the lost frames of one more link.
    pub(crate) fn with_lost(self, sent: Sent) -> Self
        ensures { result ≡ with_sent sent self }
    {
        let faults = self.with(sent.1);
        Faults {
            lost: faults.lost.saturating_add(sent.0),
            ..faults
        }
    }
}
