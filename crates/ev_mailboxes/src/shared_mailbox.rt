//! A mailbox as the workers of all edges share it. The workers of the other edges send their
//! updates by posts of their own. All other letters go by one post, under a lock: requests of the
//! operator, calls that another edge has room, updates from other processes, and the end.

ghost use Rattle.std.specs.Prelude.{◌≡◌, IfOk};

use crate::edge_message::{EdgeMessage, Letter};
use crate::request::{Request, Response};
use crate::request_slot::RequestSlot;
use crate::waiting::Waiting;
use crate::{Inbox, Post};
use std::alloc::AllocError;
use std::sync::atomic::{AtomicBool, Ordering};
use std::sync::{Condvar, Mutex, Wait};
use std::thread;

/// The shared part of a mailbox. No clause names the content of a lock or an atomic. A thread that
/// holds a lock never waits for another lock.
#[derive(Drop)]
pub(crate) struct SharedMailbox<U: Drop> {
    /// The number of its edge, from 1.
    pub(crate) number: usize,
    /// The post for all letters but the updates of the other edges.
    post: Mutex<Post<Letter<U>>>,
    /// The inbox, while no worker receives from it.
    inbox: Mutex<Option<Inbox<Letter<U>>>>,
    /// The number of updates that wait.
    waiting: Waiting,
    /// Whether a call waits: then no other one is sent.
    is_called: AtomicBool,
    slot: Mutex<RequestSlot>,
    /// The condition variable of the slot's lock, notified when a caller has an answer to take, has
    /// room for a request, or gets no answer.
    slot_bell: Condvar,
    /// The condition variable of the post's lock, notified when its edge isn't behind any more.
    room_bell: Condvar,
}

impl<U: Drop> SharedMailbox<U> {
    /// Returns the mailbox of the edge with this number, which has this inbox.
    ///
    /// # Errors
    ///
    /// `AllocError` if the mailbox has as many posts as can be counted.
    pub(crate) fn new(number: usize, inbox: Inbox<Letter<U>>) -> Result<Self, AllocError>
        ensures { IfOk result (λ mailbox. mailbox.number ≡ number) }
    {
        let mut inbox = inbox;
        let post = inbox.post()?;
        Ok(SharedMailbox {
            number,
            post: Mutex::new(post),
            inbox: Mutex::new(Some(inbox)),
            waiting: Waiting::new(),
            is_called: AtomicBool::new(false),
            slot: Mutex::new(RequestSlot::new()),
            slot_bell: Condvar::new(),
            room_bell: Condvar::new(),
        })
    }

    /// Returns `true` if its edge is behind.
    pub(crate) fn is_behind(&self) -> bool {
        self.waiting.is_behind()
    }

    /// Counts an update that is about to be sent.
    pub(crate) fn expect_update(&self) {
        self.waiting.add();
    }

    /// Receives and drops all letters that wait, if no worker receives them.
    fn discard<R: Wait>(&self, rt: &R) {
        let mut held = self.inbox.lock(rt);
        let Some(inbox) = &mut *held else {
            return;
        };
        for _ in rt.forever() {
            if inbox.try_next(rt).is_none() {
                return;
            }
        }
    }

    /// Is called if each place is taken. Empties a closed mailbox, from which no worker receives;
    /// otherwise lets the edge's worker run.
    pub(crate) fn make_place<R: Wait>(&self, rt: &R) {
        if self.waiting.is_closed() {
            self.discard(rt);
        } else {
            thread::yield_now();
        }
    }

    /// Sends a letter by the shared post.
    fn send<R: Wait>(&self, rt: &R, letter: Letter<U>) {
        let mut letter = letter;
        for _ in rt.forever() {
            let sent = self.post.lock(rt).send(rt, letter);
            match sent {
                Ok(()) => return,
                Err(back) => letter = back,
            }
            self.make_place(rt);
        }
    }

    /// Waits until its edge isn't behind.
    fn wait_for_room<R: Wait>(&self, rt: &R) {
        let mut post = self.post.lock(rt);
        for _ in rt.forever() {
            if !self.is_behind() {
                return;
            }
            post = self.room_bell.wait(rt, post);
        }
    }

    /// Waits until its edge isn't behind, then sends an update from another process.
    pub(crate) fn put_waiting<R: Wait>(&self, rt: &R, update: U) {
        self.wait_for_room(rt);
        self.expect_update();
        self.send(rt, Letter::Of(EdgeMessage::Record(update)));
    }

    /// Wakes the threads that wait until its edge isn't behind. Each of them has seen that it is
    /// behind under the lock, and waits, or will see that it isn't.
    pub(crate) fn ring_room<R: Wait>(&self, rt: &R) {
        {
            let _post = self.post.lock(rt);
        }
        self.room_bell.notify_all();
    }

    /// Calls its edge: another edge has room again.
    pub(crate) fn call<R: Wait>(&self, rt: &R) {
        if !self.is_called.swap(true, Ordering::SeqCst) {
            self.send(rt, Letter::Of(EdgeMessage::Room));
        }
    }

    /// Sends the end: its worker takes no letter that comes after it.
    pub(crate) fn end<R: Wait>(&self, rt: &R) {
        self.send(rt, Letter::Stop);
    }

    /// Takes the inbox for the worker that receives from it, unless another worker has it.
    pub(crate) fn take_inbox<R: Wait>(&self, rt: &R) -> Option<Inbox<Letter<U>>> {
        self.inbox.lock(rt).take()
    }

    /// Takes the inbox back from the worker.
    pub(crate) fn return_inbox<R: Wait>(&self, rt: &R, inbox: Inbox<Letter<U>>) {
        *self.inbox.lock(rt) = Some(inbox);
    }

    /// Closes the mailbox and its slot: drops the letters that wait and come later, and answers no
    /// more requests.
    pub(crate) fn close<R: Wait>(&self, rt: &R) {
        self.waiting.close();
        self.discard(rt);
        self.slot.lock(rt).close();
        self.slot_bell.notify_all();
        self.ring_room(rt);
    }

    /// Is called for each letter that its worker receives. Returns `true` if its edge was behind
    /// and isn't any more.
    pub(crate) fn received(&self, letter: &Letter<U>) -> bool {
        match letter {
            Letter::Of(EdgeMessage::Record(_)) => self.waiting.remove(),
            Letter::Of(EdgeMessage::Room) => {
                self.is_called.store(false, Ordering::SeqCst);
                false
            }
            Letter::Of(EdgeMessage::Ask(_)) | Letter::Stop => false,
        }
    }

    /// Waits until the slot is free, and takes it for a request. Returns `false` if the slot is
    /// closed.
    fn take_slot<R: Wait>(&self, rt: &R) -> bool {
        let mut slot = self.slot.lock(rt);
        for _ in rt.forever() {
            if slot.is_closed() {
                return false;
            }
            if slot.ask() {
                return true;
            }
            slot = self.slot_bell.wait(rt, slot);
        }
        unreachable!()
    }

    /// Waits for the answer to the request that was sent. Returns `None` if the slot is closed
    /// without an answer.
    fn collect<R: Wait>(&self, rt: &R) -> Option<Response> {
        let mut slot = self.slot.lock(rt);
        for _ in rt.forever() {
            let answer = slot.collect();
            if answer.is_some() || slot.is_closed() {
                return answer;
            }
            slot = self.slot_bell.wait(rt, slot);
        }
        unreachable!()
    }

    /// Sends the edge a request, and waits for its answer. Returns `None` if the edge has ended, or
    /// has no thread for its updates.
    pub(crate) fn ask<R: Wait>(&self, rt: &R, request: &Request) -> Option<Response> {
        if !self.take_slot(rt) {
            return None;
        }
        self.send(rt, Letter::Of(EdgeMessage::Ask(*request)));
        let answer = self.collect(rt);
        self.slot_bell.notify_all();
        answer
    }

    /// Answers the request that was received last: puts the answer in the slot for the caller.
    pub(crate) fn answer<R: Wait>(&self, rt: &R, answer: Response) {
        self.slot.lock(rt).answer(answer);
        self.slot_bell.notify_all();
    }
}
