//! The number of updates that wait in a mailbox, by an atomic count beside its channel.
ghost use Rattle.std.specs.Prelude.{◌≡◌, nat_le};

use std::sync::atomic::{AtomicBool, AtomicUsize, Ordering};

/// If this number of updates wait, the edge is behind, and the others keep theirs pending.
pub(crate) const ROOM: usize = 4096;

/// Once at most this number of updates wait, an edge that was behind isn't any more.
const CAUGHT_UP: usize = 2048;

/// The number of updates that wait for an edge, and whether the edge is behind or has closed its
/// mailbox. No clause names the content of an atomic.
#[derive(Drop)]
pub(crate) struct Waiting {
    count: AtomicUsize,
    is_behind: AtomicBool,
    is_closed: AtomicBool,
}

/// Returns `true` if an edge is behind for which `count` updates wait.
fn is_many(count: usize) -> bool
    ensures { result ≡ nat_le 4096 count }
{
    count >= ROOM
}

/// Returns `true` if an edge has caught up for which `count` updates wait.
fn is_few(count: usize) -> bool
    ensures { result ≡ nat_le count 2048 }
{
    count <= CAUGHT_UP
}

impl Waiting {
    /// Returns the count of an empty mailbox.
    pub(crate) fn new() -> Self {
        Waiting {
            count: AtomicUsize::new(0),
            is_behind: AtomicBool::new(false),
            is_closed: AtomicBool::new(false),
        }
    }

    /// Returns `true` if the edge is behind: `ROOM` updates wait, or did and the edge hasn't caught
    /// up since. An edge with a closed mailbox isn't behind.
    pub(crate) fn is_behind(&self) -> bool {
        self.is_behind.load(Ordering::SeqCst) && !self.is_closed()
    }

    /// Returns `true` if the mailbox is closed.
    pub(crate) fn is_closed(&self) -> bool {
        self.is_closed.load(Ordering::SeqCst)
    }

    /// Counts an update. The caller sends it afterwards, so that the edge never receives an update
    /// that isn't counted, and finds out that it is behind when it receives this one.
    pub(crate) fn add(&self) {
        let before = self.count.fetch_add(1, Ordering::SeqCst);
        if is_many(before.saturating_add(1)) {
            self.is_behind.store(true, Ordering::SeqCst);
        }
    }

    /// Counts a received update no more. Returns `true` if the edge was behind and isn't any more.
    pub(crate) fn remove(&self) -> bool {
        let left = self.count.fetch_sub(1, Ordering::SeqCst).saturating_sub(1);
        is_few(left)
            && self.is_behind.load(Ordering::SeqCst)
            && self.is_behind.swap(false, Ordering::SeqCst)
    }

    /// Closes the mailbox: the edge isn't behind any more.
    pub(crate) fn close(&self) {
        self.is_closed.store(true, Ordering::SeqCst);
    }
}
