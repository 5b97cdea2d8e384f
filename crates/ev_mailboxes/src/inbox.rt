//! The inputs of an edge's worker of updates, and of the worker that writes the operator's lines.
ghost use Rattle.std.specs.Prelude.{◌≡◌, ◌++◌, ◌∷◌, [], Option, List};
ghost use Rattle.ev_mailboxes.specs.Letter.{came_of};
ghost use Rattle.ev_mailboxes.specs.declared.edge_message.EdgeMessage.{EdgeMessage};

use crate::boards::Boards;
use crate::edge_message::{EdgeMessage, Letter, coming};
use crate::peers::Peers;
use crate::{Inbox, News, NoticesIn};
use std::sync::Wait;
use std::thread;

/// A source of the messages that other edges send. `U` is the type of their updates.
pub trait UpdatesIn<U: Drop> {
    /// The messages that came, in their order, and `None` for the end.
    ghost came: { Self → List (Option (EdgeMessage U)) };

    /// Waits for the next message. Returns `None` at the end.
    fn next(&mut self) -> Option<EdgeMessage<U>>
        ensures { came self.new ≡ came self.old ++ result ∷ [] };
}

/// The messages in an edge's mailbox: those of the letters that its inbox receives.
#[derive(Drop)]
pub struct UpdateBox<'x, U: Drop, R> {
    rt: &'x R,
    /// The mailboxes, as the edge sees them.
    peers: Peers<'x, U>,
    inbox: Inbox<Letter<U>>,
}

impl<'x, U: Drop, R: Wait> UpdateBox<'x, U, R> {
    /// Opens the edge's mailbox. Returns `None` if another worker has it.
    pub fn open(rt: &'x R, peers: Peers<'x, U>) -> Option<Self> {
        let inbox = peers.take_inbox(rt)?;
        Some(UpdateBox { rt, peers, inbox })
    }

    /// Closes the edge's mailbox: the edge takes no more messages, so no other edge keeps its own
    /// updates back for it.
    pub fn close(self) {
        let UpdateBox { rt, peers, inbox } = self;
        peers.return_inbox(rt, inbox);
        peers.leave(rt);
    }
}

impl<U: Drop, R: Wait> UpdatesIn<U> for UpdateBox<'_, U, R> {
    ghost came = { λ b. came_of b.inbox };

    fn next(&mut self) -> Option<EdgeMessage<U>> {
        for _ in self.rt.forever() {
            if let Some(letter) = self.inbox.next(self.rt) {
                self.peers.received(self.rt, &letter);
                return coming(letter);
            }
            thread::yield_now();
        }
        unreachable!()
    }
}

/// The news on the boards of all edges. Clauses can't see the content of a lock, so this source
/// doesn't report the news that came.
#[derive(Drop)]
pub struct NoticeBox<'x, R> {
    /// The handle that calls need to wait.
    pub rt: &'x R,
    /// The boards.
    pub boards: &'x Boards,
}

impl<R: Wait> NoticesIn for NoticeBox<'_, R> {
    ghost use Rattle.std.specs.Prelude.{None};

    ghost came = { λ b. None };

    fn next(&mut self) -> Option<(u64, News)> {
        self.boards.next(self.rt)
    }
}
