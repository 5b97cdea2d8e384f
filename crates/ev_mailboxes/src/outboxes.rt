//! The outboxes of the connections that exchange records. The workers of all edges share them with
//! the threads that send the announcements on these connections.

use crate::outbox::Outbox;
use route_wire::Update;
use std::sync::atomic::{AtomicBool, Ordering};
use std::sync::{Condvar, Mutex, Wait};

/// The number of connections that exchange records at once.
const CONNECTIONS: usize = 8;

/// The place of one connection: an outbox under a lock of its own, while a connection is joined.
#[derive(Drop)]
pub(crate) struct SharedOutbox {
    held: Mutex<Option<Outbox>>,
    /// Whether a connection is joined, readable without the lock.
    is_joined: AtomicBool,
    /// The condition variable of the lock, notified when there is an update to take or nothing more
    /// comes.
    bell: Condvar,
}

impl SharedOutbox {
    /// Returns a free place.
    fn new() -> Self {
        SharedOutbox {
            held: Mutex::new(None),
            is_joined: AtomicBool::new(false),
            bell: Condvar::new(),
        }
    }

    /// Puts an update after the others, if a connection is joined.
    fn put<R: Wait>(&self, rt: &R, update: Update) {
        if !self.is_joined.load(Ordering::SeqCst) {
            return;
        }
        {
            let mut held = self.held.lock(rt);
            if let Some(outbox) = &mut *held {
                outbox.put(update);
            }
        }
        self.bell.notify_all();
    }

    /// Takes the place with an outbox, if the place is free. Returns `true` if it did.
    fn join<R: Wait>(&self, rt: &R, outbox: &mut Option<Outbox>) -> bool {
        let mut held = self.held.lock(rt);
        if held.is_some() {
            return false;
        }
        *held = outbox.take();
        self.is_joined.store(true, Ordering::SeqCst);
        true
    }

    /// Frees the place.
    fn leave<R: Wait>(&self, rt: &R) {
        let mut held = self.held.lock(rt);
        *held = None;
        self.is_joined.store(false, Ordering::SeqCst);
    }

    /// Cuts off the connection that takes from the outbox.
    fn cut_off<R: Wait>(&self, rt: &R) {
        {
            let mut held = self.held.lock(rt);
            if let Some(outbox) = &mut *held {
                outbox.cut_off();
            }
        }
        self.bell.notify_all();
    }

    /// Waits for the first update. Returns `None` once the connection is cut off, or if the place
    /// is free.
    fn next<R: Wait>(&self, rt: &R) -> Option<Update> {
        let mut held = self.held.lock(rt);
        for _ in rt.forever() {
            let Some(outbox) = &mut *held else {
                return None;
            };
            let first = outbox.take();
            if first.is_some() || outbox.is_cut_off() {
                return first;
            }
            held = self.bell.wait(rt, held);
        }
        unreachable!()
    }

    /// Returns `true` if no update waits to be taken.
    fn is_empty<R: Wait>(&self, rt: &R) -> bool {
        match &*self.held.lock(rt) {
            Some(outbox) => outbox.is_empty(),
            None => true,
        }
    }
}

/// The places of all connections. A thread that holds the lock of one never waits for another lock.
#[derive(Drop)]
pub(crate) struct Outboxes {
    all: [SharedOutbox; CONNECTIONS],
}

impl Outboxes {
    /// Returns free places.
    pub(crate) fn new() -> Self {
        Outboxes {
            all: [
                SharedOutbox::new(),
                SharedOutbox::new(),
                SharedOutbox::new(),
                SharedOutbox::new(),
                SharedOutbox::new(),
                SharedOutbox::new(),
                SharedOutbox::new(),
                SharedOutbox::new(),
            ],
        }
    }

    /// Puts an update that an edge announces into the outbox of each connection.
    pub(crate) fn put<R: Wait>(&self, rt: &R, update: Update) {
        for outbox in self.all.iter() {
            outbox.put(rt, update);
        }
    }

    /// Takes a free place with this outbox, if there is one.
    pub(crate) fn join<R: Wait>(&self, rt: &R, outbox: Outbox) -> Option<Joined<'_>> {
        let mut outbox = Some(outbox);
        for place in self.all.iter() {
            if place.join(rt, &mut outbox) {
                return Some(Joined { place });
            }
        }
        None
    }
}

/// The place of one connection, which sends the updates that the edges announce after it has
/// joined. The connection's reader can put updates that came between them. Its holder frees it at
/// the end (`leave`).
#[derive(Clone, Copy, Drop)]
pub struct Joined<'x> {
    place: &'x SharedOutbox,
}

impl Joined<'_> {
    /// Puts an update that came over the connection after the others, so that the connection's
    /// sender gets it.
    pub fn put<R: Wait>(&self, rt: &R, update: Update) {
        self.place.put(rt, update);
    }

    /// Waits for the next update that an edge announces, or that `put` has put. Returns `None` once
    /// the connection is cut off: 65,536 updates waited and one more came, or `cut_off` was called.
    pub fn next<R: Wait>(&self, rt: &R) -> Option<Update> {
        self.place.next(rt)
    }

    /// Returns `true` if the next update is still to come.
    pub fn is_idle<R: Wait>(&self, rt: &R) -> bool {
        self.place.is_empty(rt)
    }

    /// Cuts the connection off: a call that waits for an update gets none.
    pub fn cut_off<R: Wait>(&self, rt: &R) {
        self.place.cut_off(rt);
    }

    /// Frees the place for another connection. No thread may wait for its updates any more.
    pub fn leave<R: Wait>(&self, rt: &R) {
        self.place.leave(rt);
    }
}
