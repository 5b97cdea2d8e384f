//! The outbox of a connection to another process that runs edges: the updates that the edges of
//! this process announce, as far as there is room.
ghost use Rattle.std.specs.Prelude.{◌≡◌, ◌==◌, IfOk, length};
ghost use Rattle.ev_mailboxes.specs.Outbox.{no_announcements, after_announcement, after_cut, first_announcement, after_first};

use route_wire::Update;
use std::alloc::{AllocError, Global};
use std::collections::VecDeque;
use std::marker::Model;

/// If this number of updates wait and one more comes, the connection is cut off. They take some 4
/// MB, and are more than twice the announcements of an edge that learns as many stations as its
/// table has room for.
const ROOM: usize = 65_536;

/// The announcements that wait to be sent on one connection. Its memory is taken once, when it is
/// made. No edge ever waits for a connection: one that takes too slowly is cut off, and can begin
/// again with the tables as they are then.
#[derive(Drop)]
pub struct Outbox {
    updates: VecDeque<Update>,
    is_cut_off: bool,
}

impl Model for Outbox {
    ghost use Rattle.std.specs.Prelude.{◌≤◌};
    ghost use Rattle.std.specs.Coded.{codes};
    ghost use Rattle.std.specs.FinMap.{code};
    ghost use Rattle.std.specs.VecDeque.{deque_capacity};
    ghost use Rattle.ev_mailboxes.specs.Outbox.{Outgoing, outgoing};

    ghost Value = { Outgoing };

    ghost coded = { Prim.hlevel (codes, code) };

    ghost view = { λ o. outgoing o.updates.items o.is_cut_off };

    ghost invariant = { λ o. 65536 ≤ deque_capacity o.updates };
}

impl Outbox {
    /// Returns an empty outbox.
    ///
    /// # Errors
    ///
    /// `AllocError` if memory is refused.
    pub fn new(alloc: Global) -> Result<Self, AllocError>
        ensures { IfOk result (λ o. o ≡ no_announcements) }
    {
        Ok(Outbox {
            updates: VecDeque::with_capacity(alloc, ROOM)?,
            is_cut_off: false,
        })
    }

    /// Puts an update after the others. If there is no room for it, the connection is cut off, and
    /// gets none of the updates any more.
    pub fn put(&mut self, update: Update)
        ensures { self.new ≡ after_announcement update self.old }
    {
        if self.is_cut_off {
            return;
        }
        if self.updates.len() >= ROOM {
            self.cut_off();
            return;
        }
        self.updates.push_back_reserved(update);
    }

    /// Cuts off the connection: drops the updates, and ignores later ones.
    pub fn cut_off(&mut self)
        ensures { self.new ≡ after_cut self.old }
    {
        self.updates.clear();
        self.is_cut_off = true;
    }

    /// Takes the first update.
    pub fn take(&mut self) -> Option<Update>
        ensures first { result ≡ first_announcement self.old }
        ensures rest { self.new ≡ after_first self.old }
    {
        self.updates.pop_front()
    }

    /// Returns `true` if no update waits.
    pub fn is_empty(&self) -> bool
        ensures { result ≡ length self.now.waiting == 0 }
    {
        self.updates.len() == 0
    }

    /// Returns `true` if the connection is cut off.
    pub fn is_cut_off(&self) -> bool
        ensures { result ≡ self.now.is_cut_off }
    {
        self.is_cut_off
    }
}
