//! The edges that run together, as one of them sees them: the mailboxes of the others, and its own
//! board.

ghost use Rattle.std.specs.Prelude.{◌≡◌, ◌-◌, ◌<◌, IfSome, IfOk, slice_get, option_copied, vec_len, length};
ghost use Rattle.ev_mailboxes.specs.Posts.{sent_to, with_record};

use crate::boards::Boards;
use crate::edge_message::Letter;
use crate::outboxes::Outboxes;
use crate::posts::Posts;
use crate::request::Response;
use crate::shared_mailbox::SharedMailbox;
use crate::waiting::ROOM;
use crate::{Alarm, Inbox, LinkCounts, Reception, mailbox};
use ev_book::{Naming, Told};
use std::alloc::{AllocError, Global};
use std::sync::{Mutex, Wait};

/// The number of places in a mailbox for letters that no worker of an edge sends: an update of each
/// connection to another process, a call, a request and the end.
const OTHERS: usize = 16;

/// The mailboxes of all edges, and the outboxes of the connections to other processes. No clause
/// names the content of a lock or an atomic.
#[derive(Drop)]
pub struct Mailboxes<U: Drop> {
    all: Vec<SharedMailbox<U>>,
    /// The posts of the workers that haven't begun.
    posts: Mutex<Vec<Posts<U>>>,
    outboxes: Outboxes,
}

/// Returns the inboxes of `edges` empty mailboxes, each with `places` places.
fn empty_inboxes<U: Drop>(
    alloc: Global,
    edges: usize,
    places: usize,
) -> Result<Vec<Inbox<Letter<U>>>, AllocError>
    requires { 0 < places }
    ensures { IfOk result (λ inboxes. vec_len inboxes ≡ edges) }
{
    let mut inboxes = Vec::with_capacity(alloc, edges)?;
    for place in 0..edges {
        let _ = place;
        inboxes.push_reserved(mailbox(alloc, places)?);
    }
    Ok(inboxes)
}

/// Returns the posts of `workers` workers, each with one to each of these mailboxes.
fn posts_of<U: Drop>(
    alloc: Global,
    workers: usize,
    inboxes: &mut [Inbox<Letter<U>>],
) -> Result<Vec<Posts<U>>, AllocError>
    ensures all { IfOk result (λ posts. vec_len posts ≡ workers) }
    ensures len { length inboxes.new ≡ length inboxes.old }
{
    let mut posts = Vec::with_capacity(alloc, workers)?;
    for worker in 0..workers {
        let _ = worker;
        posts.push_reserved(Posts::new(alloc, inboxes)?);
    }
    Ok(posts)
}

impl<U: Drop> Mailboxes<U> {
    /// Returns a mailbox for each of `edges` edges, which have `workers` workers together. Each
    /// mailbox has places for the updates with which its edge falls behind, and for one more of
    /// each worker, which may have checked for room before.
    ///
    /// # Errors
    ///
    /// `AllocError` if memory is refused.
    pub fn new(alloc: Global, edges: usize, workers: u32) -> Result<Self, AllocError>
        ensures { IfOk result (λ mailboxes. vec_len mailboxes.all ≡ edges) }
    {
        let workers = workers as usize;
        let mut inboxes = empty_inboxes(alloc, edges, ROOM + workers + OTHERS)?;
        let posts = posts_of(alloc, workers, inboxes.as_mut_slice())?;
        let mut all = Vec::with_capacity(alloc, edges)?;
        while let Some(inbox) = inboxes.pop() {
            all.push_reserved(SharedMailbox::new(inboxes.len() + 1, inbox)?);
        }
        all.as_mut_slice().reverse();
        Ok(Mailboxes {
            all,
            posts: Mutex::new(posts),
            outboxes: Outboxes::new(),
        })
    }

    /// Returns the number of edges.
    pub(crate) fn edges(&self) -> usize
        ensures { result ≡ vec_len self.now.all }
    {
        self.all.len()
    }

    /// Returns the outboxes of the connections to other processes.
    pub(crate) fn outboxes(&self) -> &Outboxes
        ensures { result.now ≡ self.now.outboxes }
    {
        &self.outboxes
    }

    /// Returns the mailbox of the edge with this number, from 1.
    pub(crate) fn of(&self, number: usize) -> Option<&SharedMailbox<U>>
        ensures { IfSome result (λ mailbox. mailbox.now.number ≡ number) }
    {
        for mailbox in self.all.iter() {
            if mailbox.number == number {
                return Some(mailbox);
            }
        }
        None
    }

    /// Returns the mailboxes as the edge with this number sees them, counted from 1, with the
    /// boards of all edges.
    pub fn seen_by<'x>(&'x self, number: usize, boards: &'x Boards) -> Peers<'x, U>
        ensures number { result.number ≡ number }
        ensures mailboxes { result.mailboxes.now ≡ self.entry.now.all.items }
        ensures boards { result.boards.now ≡ boards.now }
    {
        Peers {
            mailboxes: self.all.as_slice(),
            posts: &self.posts,
            outboxes: &self.outboxes,
            boards,
            number,
        }
    }
}

impl<J: Naming> Mailboxes<Told<J>> {
    /// Puts an update from another process into the mailbox of each edge, and waits while one is
    /// behind.
    pub(crate) fn take<R: Wait>(&self, rt: &R, update: &Told<J>) {
        for mailbox in self.all.iter() {
            mailbox.put_waiting(rt, update.again());
        }
    }
}

/// The mailboxes and boards of all edges, as one of the edges sees them.
#[derive(Drop)]
pub struct Peers<'x, U: Drop> {
    mailboxes: &'x [SharedMailbox<U>],
    posts: &'x Mutex<Vec<Posts<U>>>,
    outboxes: &'x Outboxes,
    boards: &'x Boards,
    /// The edge's number, from 1.
    number: usize,
}

impl<'x, U: Drop> Clone for Peers<'x, U> {
    fn clone(&self) -> Result<Self, AllocError> {
        Ok(*self)
    }
}

impl<'x, U: Drop> Copy for Peers<'x, U> {}

impl<'x, U: Drop> Peers<'x, U> {
    /// Returns the edge's own mailbox.
    fn own(&self) -> Option<&SharedMailbox<U>>
        ensures { option_copied result ≡ slice_get self.now.mailboxes.now (self.now.number - 1) }
    {
        self.mailboxes.get(self.number.saturating_sub(1))
    }

    /// Returns `true` if no other edge is behind.
    pub fn have_room(&self) -> bool {
        for (place, mailbox) in self.mailboxes.iter().enumerate() {
            if place + 1 != self.number && mailbox.is_behind() {
                return false;
            }
        }
        true
    }

    /// Takes the posts of a worker that begins. Returns `None` if all workers have theirs.
    pub fn posts<R: Wait>(&self, rt: &R) -> Option<Posts<U>> {
        self.posts.lock(rt).pop()
    }

    /// Returns the numbers of this edge's link at a place: the tunnel's has place 0, and that of a
    /// port the port's number.
    pub fn link(&self, place: usize) -> Option<&'x LinkCounts> {
        let boards = self.boards;
        boards.links(self.number)?.get(place)
    }

    /// Notes that this edge has so many links, the tunnel's among them.
    pub fn use_links(&self, count: usize) {
        self.boards.use_links(self.number, count);
    }

    /// Counts a second that passes on this edge's board.
    pub fn second<R: Wait>(&self, rt: &R) {
        self.boards.second(rt, self.number);
    }

    /// Puts an alert on this edge's board.
    pub fn alarm<R: Wait>(&self, rt: &R, alarm: Alarm) {
        self.boards.alarm(rt, self.number, alarm);
    }

    /// Reports that receiving over a link of this edge failed, or works again.
    pub fn reception<R: Wait>(&self, rt: &R, reception: Reception) {
        self.boards.reception(rt, self.number, reception);
    }

    /// Calls each of the other edges: this edge has room again.
    fn call<R: Wait>(&self, rt: &R) {
        for (place, mailbox) in self.mailboxes.iter().enumerate() {
            if place + 1 != self.number {
                mailbox.call(rt);
            }
        }
    }

    /// Takes this edge's inbox for its worker of updates, unless another worker has it.
    pub(crate) fn take_inbox<R: Wait>(&self, rt: &R) -> Option<Inbox<Letter<U>>> {
        self.own()?.take_inbox(rt)
    }

    /// Takes this edge's inbox back from its worker of updates.
    pub(crate) fn return_inbox<R: Wait>(&self, rt: &R, inbox: Inbox<Letter<U>>) {
        if let Some(own) = self.own() {
            own.return_inbox(rt, inbox);
        }
    }

    /// Is called for each letter that this edge's worker of updates receives. If the edge has
    /// caught up, calls the others.
    pub(crate) fn received<R: Wait>(&self, rt: &R, letter: &Letter<U>) {
        let Some(own) = self.own() else {
            return;
        };
        if own.received(letter) {
            own.ring_room(rt);
            self.call(rt);
        }
    }

    /// Answers the request that this edge's worker of updates received last.
    pub fn answer<R: Wait>(&self, rt: &R, answer: Response) {
        if let Some(mailbox) = self.own() {
            mailbox.answer(rt, answer);
        }
    }

    /// Lets this edge's worker of updates end, once it has taken the letters that wait.
    pub fn end<R: Wait>(&self, rt: &R) {
        if let Some(mailbox) = self.own() {
            mailbox.end(rt);
        }
    }

    /// Closes this edge's mailbox: the edge takes no more updates, so no other edge keeps its own
    /// back for it.
    pub fn leave<R: Wait>(&self, rt: &R) {
        if let Some(mailbox) = self.own() {
            mailbox.close(rt);
        }
        self.call(rt);
    }
}

impl<J: Naming> Peers<'_, Told<J>> {
    /// Sends an update to each of the other edges, by the posts of the calling worker, and to other
    /// processes.
    pub fn send<R: Wait>(&self, rt: &R, posts: &mut Posts<Told<J>>, update: Told<J>)
        ensures { sent_to posts.new ≡ with_record self.now.number update (sent_to posts.old) }
    {
        posts.send(rt, self.mailboxes, self.number, &update);
        self.outboxes.put(rt, *update.update());
    }
}
