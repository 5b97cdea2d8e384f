//! The datagrams of a link in one direction, counted, and the place where others read the count.
ghost use Rattle.std.specs.Prelude.{◌≡◌};
ghost use Rattle.ev_links.specs.Flow.{no_flow, counted};

use std::sync::atomic::{AtomicU64, Ordering};

/// The number of datagrams that went over a link in one direction, and of their octets. Both
/// numbers stop at 2^64 - 1.
#[derive(Clone, Copy, Debug, PartialEq, Eq)]
pub struct Flow {
    /// The number of datagrams.
    pub datagrams: u64,
    /// The number of their octets.
    pub octets: u64,
}

impl Flow {
    /// Returns the flow of a link over which nothing went.
    pub fn none() -> Self
        ensures { result ≡ no_flow }
    {
        Flow {
            datagrams: 0,
            octets: 0,
        }
    }

    /// Returns this flow with one more datagram of `size` octets.
    pub fn with(self, size: usize) -> Self
        ensures { result ≡ counted size self }
    {
        Flow {
            datagrams: self.datagrams.saturating_add(1),
            octets: self.octets.saturating_add(size as u64),
        }
    }
}

/// A flow and a number of failed calls. One worker shows them while it runs, and other threads read
/// them. A reader may get numbers of different moments.
#[derive(Drop)]
pub struct FlowCell {
    datagrams: AtomicU64,
    octets: AtomicU64,
    failures: AtomicU64,
}

impl FlowCell {
    /// Creates a cell that shows no datagrams.
    pub fn new() -> Self {
        FlowCell {
            datagrams: AtomicU64::new(0),
            octets: AtomicU64::new(0),
            failures: AtomicU64::new(0),
        }
    }

    /// Shows a flow from now on.
    pub fn show(&self, flow: Flow) {
        self.datagrams.store(flow.datagrams, Ordering::Relaxed);
        self.octets.store(flow.octets, Ordering::Relaxed);
    }

    /// Shows a number of failed calls from now on.
    pub(crate) fn show_failures(&self, failures: u64) {
        self.failures.store(failures, Ordering::Relaxed);
    }

    /// Returns the number of failed calls that is shown.
    pub fn failures(&self) -> u64 {
        self.failures.load(Ordering::Relaxed)
    }

    /// Returns the flow that is shown.
    pub fn shown(&self) -> Flow {
        Flow {
            datagrams: self.datagrams.load(Ordering::Relaxed),
            octets: self.octets.load(Ordering::Relaxed),
        }
    }
}
