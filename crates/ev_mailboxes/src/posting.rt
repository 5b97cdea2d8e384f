//! The calls of a mailbox's ends: a post sends, and the inbox receives.
ghost use Rattle.std.specs.Prelude.{◌≡◌, ◌<◌, ◌++◌, ◌∷◌, [], IfOk, IfErr, OnOk, MatchOption};
ghost use Rattle.ev_mailboxes.specs.Ends.{sent_by, received_by};

use crate::channel;
use crate::ends::{Inbox, Post};
use std::alloc::{AllocError, Global};
use std::sync::Wait;

impl<T: Drop> Post<T> {
    /// Sends a message. Never waits for a place.
    ///
    /// # Errors
    ///
    /// The message comes back if each place is taken, or no one receives any more.
    pub fn send<R: Wait>(&mut self, rt: &R, message: T) -> Result<(), T>
        ensures sent { OnOk result (sent_by self.new ≡ sent_by self.old ++ message ∷ []) }
        ensures back { IfErr result (λ m. (m ≡ message) × (sent_by self.new ≡ sent_by self.old)) }
    {
        match channel::send(rt, &self.mail, &mut self.slip, message) {
            Ok(()) => Ok(()),
            Err(error) => Err(error.into_inner()),
        }
    }
}

/// Returns the inbox of an empty mailbox with places for this number of messages. The places are
/// the only memory that the mailbox takes.
///
/// # Errors
///
/// `AllocError` if memory is refused.
pub fn mailbox<T: Drop>(alloc: Global, places: usize) -> Result<Inbox<T>, AllocError>
    requires { 0 < places }
    ensures { IfOk result (λ inbox. received_by inbox ≡ []) }
{
    let (mail_in, mail_out, slip) = channel::channel(alloc, places)?;
    Ok(Inbox {
        mail_in,
        mail_out,
        slip,
    })
}

impl<T: Drop> Inbox<T> {
    /// Makes a post that sends to this mailbox.
    ///
    /// # Errors
    ///
    /// `AllocError` if the mailbox has as many posts as can be counted.
    pub fn post(&mut self) -> Result<Post<T>, AllocError>
        ensures post { IfOk result (λ post. sent_by post ≡ []) }
        ensures stays { received_by self.new ≡ received_by self.old }
    {
        let mail = self.mail_in.try_clone()?;
        let slip = channel::make_sender(&self.mail_in, &mut self.slip);
        Ok(Post { mail, slip })
    }

    /// Waits for the next message. Returns `None` if no post is left.
    pub fn next<R: Wait>(&mut self, rt: &R) -> Option<T>
        ensures { MatchOption result (received_by self.new ≡ received_by self.old)
            (λ x. received_by self.new ≡ received_by self.old ++ x ∷ []) }
    {
        channel::next(rt, &self.mail_out, &mut self.slip).ok()
    }

    /// Receives a message if one waits.
    pub fn try_next<R: Wait>(&mut self, rt: &R) -> Option<T>
        ensures { MatchOption result (received_by self.new ≡ received_by self.old)
            (λ x. received_by self.new ≡ received_by self.old ++ x ∷ []) }
    {
        channel::try_next(rt, &self.mail_out, &mut self.slip).ok()
    }
}
