//! The posts of a worker: one to the mailbox of each edge.
ghost use Rattle.std.specs.Prelude.{◌≡◌, IfOk, length, map};
ghost use Rattle.ev_mailboxes.specs.Posts.{letters_to, sent_to, one_with, with_record};
ghost use Rattle.ev_mailboxes.specs.Inner.Posts.{none_sent};

use crate::edge_message::{EdgeMessage, Letter};
use crate::shared_mailbox::SharedMailbox;
use crate::{Inbox, Post};
use ev_book::{Naming, Told};
use std::alloc::{AllocError, Global};
use std::sync::Wait;

/// A post to the mailbox of one edge.
#[derive(Drop)]
pub struct EdgePost<U: Drop> {
    /// The number of the edge, from 1.
    to: usize,
    post: Post<Letter<U>>,
}

/// Sends an update, unless the edge is the worker's own. Never waits for a place: if each place is
/// taken, empties a closed mailbox and tries again.
fn send_one<J: Naming, R: Wait>(
    rt: &R,
    mailboxes: &[SharedMailbox<Told<J>>],
    own: usize,
    post: &mut EdgePost<Told<J>>,
    update: &Told<J>,
)
    ensures { letters_to post.new ≡ one_with own update.now (letters_to post.old) }
{
    if post.to == own {
        return;
    }
    let mailbox = mailboxes.get(post.to.saturating_sub(1));
    if let Some(mailbox) = mailbox {
        mailbox.expect_update();
    }
    let mut letter = Letter::Of(EdgeMessage::Record(update.again()));
    for _ in rt.forever() {
        match post.post.send(rt, letter) {
            Ok(()) => return,
            Err(back) => letter = back,
        }
        if let Some(mailbox) = mailbox {
            mailbox.make_place(rt);
        }
    }
    unreachable!()
}

/// Sends an update to each of these edges but the worker's own.
fn send_each<J: Naming, R: Wait>(
    rt: &R,
    mailboxes: &[SharedMailbox<Told<J>>],
    own: usize,
    posts: &mut [EdgePost<Told<J>>],
    update: &Told<J>,
)
    ensures { map letters_to posts.new ≡ with_record own update.now (map letters_to posts.old) }
{
    for post in posts.iter_mut() {
        send_one(rt, mailboxes, own, post, update);
    }
}

/// The posts of a worker, one to the mailbox of each edge. The post to its own edge sends nothing.
#[derive(Drop)]
pub struct Posts<U: Drop> {
    all: Vec<EdgePost<U>>,
}

impl<U: Drop> Posts<U> {
    /// Makes posts to these mailboxes, of edges 1, 2 ..
    ///
    /// # Errors
    ///
    /// `AllocError` if memory is refused.
    pub(crate) fn new(alloc: Global, inboxes: &mut [Inbox<Letter<U>>]) -> Result<Self, AllocError>
        ensures sent { IfOk result (λ posts. sent_to posts ≡ none_sent (length inboxes.old)) }
        ensures len { length inboxes.new ≡ length inboxes.old }
    {
        let mut all = Vec::with_capacity(alloc, inboxes.len())?;
        for place in 0..inboxes.len() {
            all.push_reserved(EdgePost {
                to: place + 1,
                post: inboxes[place].post()?,
            });
        }
        Ok(Posts { all })
    }
}

impl<J: Naming> Posts<Told<J>> {
    /// Sends an update to each edge but the worker's own, which has the number `own`.
    pub(crate) fn send<R: Wait>(
        &mut self,
        rt: &R,
        mailboxes: &[SharedMailbox<Told<J>>],
        own: usize,
        update: &Told<J>,
    )
        ensures { sent_to self.new ≡ with_record own update.now (sent_to self.old) }
    {
        send_each(rt, mailboxes, own, self.all.as_mut_slice(), update);
    }
}
