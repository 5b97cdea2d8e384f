//! The numbers of a link, which other threads read while the link is used.
ghost use Rattle.std.specs.Prelude.{◌≡◌, ◌+◌, ◌-◌, ◌^◌, min};
ghost use Rattle.ev_mailboxes.specs.IdleWatch.{after_idle};

use crate::drop_reason::DropReason;
use crate::idle_watch::IdleWatch;
use ev_links::{Flow, FlowCell};
use std::sync::atomic::{AtomicU64, Ordering};

/// A watch that its owner shows to other threads.
#[derive(Drop)]
struct IdleCell {
    count: AtomicU64,
    seconds: AtomicU64,
}

impl IdleCell {
    /// Creates the watch of a link over which nothing came or was sent.
    fn new() -> Self {
        let watch = IdleWatch::new();
        IdleCell {
            count: AtomicU64::new(watch.count),
            seconds: AtomicU64::new(watch.seconds),
        }
    }

    /// Shows a watch from now on.
    fn show(&self, watch: IdleWatch) {
        self.count.store(watch.count, Ordering::Relaxed);
        self.seconds.store(watch.seconds, Ordering::Relaxed);
    }

    /// Returns the watch that is shown.
    fn shown(&self) -> IdleWatch {
        IdleWatch {
            count: self.count.load(Ordering::Relaxed),
            seconds: self.seconds.load(Ordering::Relaxed),
        }
    }

    /// Returns the seconds of the watch.
    fn seconds(&self) -> u64 {
        self.seconds.load(Ordering::Relaxed)
    }
}

/// The flows of a link and the watches over both directions, loaded from their cells.
#[derive(Clone, Copy)]
struct Watched {
    /// The datagrams that came.
    received: Flow,
    /// The datagrams that were sent at once.
    at_once: Flow,
    /// The datagrams that the link's worker sent.
    queued: Flow,
    /// The watch over what came.
    idle_in: IdleWatch,
    /// The watch over what was sent.
    idle_out: IdleWatch,
}

impl Watched {
    /// Notes a second that passes: at each watch, with the number of datagrams in its direction.
    fn second(&mut self)
        ensures came { self.new.idle_in ≡ after_idle self.old.received.datagrams self.old.idle_in }
        ensures sent { self.new.idle_out
            ≡ after_idle (min (self.old.at_once.datagrams + self.old.queued.datagrams) (2 ^ 64 - 1))
            self.old.idle_out }
    {
        let sent = self.at_once.datagrams.saturating_add(self.queued.datagrams);
        self.idle_in.second(self.received.datagrams);
        self.idle_out.second(sent);
    }
}

/// The numbers of one link. Each has one writer, and other threads read it without a lock. So a
/// reader may get numbers of different moments.
#[derive(Drop)]
pub struct LinkCounts {
    /// The datagrams that came over the link.
    pub received: FlowCell,
    /// The datagrams that were sent at once.
    pub at_once: FlowCell,
    /// The datagrams that the link's worker sent.
    pub queued: FlowCell,
    too_long: AtomicU64,
    malformed: AtomicU64,
    unlisted: AtomicU64,
    other_network: AtomicU64,
    storm: AtomicU64,
    no_memory: AtomicU64,
    no_room: AtomicU64,
    idle_in: IdleCell,
    idle_out: IdleCell,
}

impl LinkCounts {
    /// Creates the numbers of a link that wasn't used yet.
    pub fn new() -> Self {
        LinkCounts {
            received: FlowCell::new(),
            at_once: FlowCell::new(),
            queued: FlowCell::new(),
            too_long: AtomicU64::new(0),
            malformed: AtomicU64::new(0),
            unlisted: AtomicU64::new(0),
            other_network: AtomicU64::new(0),
            storm: AtomicU64::new(0),
            no_memory: AtomicU64::new(0),
            no_room: AtomicU64::new(0),
            idle_in: IdleCell::new(),
            idle_out: IdleCell::new(),
        }
    }

    /// Returns the number of datagrams that were dropped for this cause.
    fn of(&self, cause: DropReason) -> &AtomicU64 {
        match cause {
            DropReason::TooLong => &self.too_long,
            DropReason::Malformed => &self.malformed,
            DropReason::Unlisted => &self.unlisted,
            DropReason::OtherNetwork => &self.other_network,
            DropReason::Storm => &self.storm,
            DropReason::NoMemory => &self.no_memory,
        }
    }

    /// Counts a datagram that was dropped for this cause.
    pub fn refuse(&self, cause: DropReason) {
        self.of(cause).fetch_add(1, Ordering::Relaxed);
    }

    /// Returns the number of datagrams that were dropped for this cause.
    pub fn refused(&self, cause: DropReason) -> u64 {
        self.of(cause).load(Ordering::Relaxed)
    }

    /// Shows the number of frames and BPDUs that found no room.
    pub fn show_no_room(&self, count: u64) {
        self.no_room.store(count, Ordering::Relaxed);
    }

    /// Returns the number of frames and BPDUs that found no room.
    pub fn no_room(&self) -> u64 {
        self.no_room.load(Ordering::Relaxed)
    }

    /// Returns the number of sends that failed. Only the link's worker finds out that a send fails.
    pub fn failed(&self) -> u64 {
        self.queued.failures()
    }

    /// Returns the number of datagrams that were sent, at once or by the link's worker.
    pub fn sent(&self) -> u64 {
        let (at_once, queued) = (self.at_once.shown(), self.queued.shown());
        at_once.datagrams.saturating_add(queued.datagrams)
    }

    /// Returns the number of their octets.
    pub fn sent_octets(&self) -> u64 {
        let (at_once, queued) = (self.at_once.shown(), self.queued.shown());
        at_once.octets.saturating_add(queued.octets)
    }

    /// Loads what the watches rest on.
    fn watched(&self) -> Watched {
        Watched {
            received: self.received.shown(),
            at_once: self.at_once.shown(),
            queued: self.queued.shown(),
            idle_in: self.idle_in.shown(),
            idle_out: self.idle_out.shown(),
        }
    }

    /// Notes a second that passes. Only one thread calls this.
    pub fn second(&self) {
        let mut watched = self.watched();
        watched.second();
        self.idle_in.show(watched.idle_in);
        self.idle_out.show(watched.idle_out);
    }

    /// Returns the seconds since the last datagram came, or since the beginning if none came.
    pub fn idle_in(&self) -> u64 {
        self.idle_in.seconds()
    }

    /// Returns the seconds since the last datagram was sent, or since the beginning if none was.
    pub fn idle_out(&self) -> u64 {
        self.idle_out.seconds()
    }
}
