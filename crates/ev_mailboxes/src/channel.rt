//! The channel under the rule, and the effect of each call on a pass.
ghost use Rattle.std.specs.Prelude.{◌≡◌, ◌<◌, OnErr, [], IfErr, IfOk, OnOk};
ghost use Rattle.crossbeam_channel.specs.Claims.{view, IsSeatAt};
ghost use Rattle.crossbeam_channel.specs.Ends.{sends_on, receives_on};
ghost use Rattle.crossbeam_channel.specs.Err.{try_send_message};
ghost use Rattle.ev_mailboxes.specs.Delivery.{IsSender, IsReceiver};
ghost use Rattle.ev_mailboxes.specs.Inner.Calls.{with_put, with_made, next_sender, Takes};
ghost use Rattle.ev_mailboxes.specs.declared.view.View.TheVariants.{Receiver};

use crate::rule::{Delivery, Gets, Makes, Puts};
use crate::view::View;
use crossbeam_channel::{
    Pass, RecvError, RuledReceiver, RuledSender, TryRecvError, TrySendError, bounded_with,
};
use std::alloc::{AllocError, Global};
use std::sync::Wait;

/// A pass of a mailbox's channel. It takes no memory.
pub(crate) type Slip<T> = Pass<T, View<T>>;

/// The end of the channel to which messages are sent.
pub(crate) type MailIn<T> = RuledSender<T, View<T>, Delivery>;

/// The end of the channel from which messages are received.
pub(crate) type MailOut<T> = RuledReceiver<T, View<T>, Delivery>;

/// Returns an empty channel with this number of places, and the inbox's pass.
pub(crate) fn channel<T: Drop>(
    alloc: Global,
    places: usize,
) -> Result<(MailIn<T>, MailOut<T>, Slip<T>), AllocError>
    requires { 0 < places }
    ensures { IfOk result (λ r. (receives_on r.1 ≡ sends_on r.0) × IsSeatAt (sends_on r.0) r.2
        × (view r.2 ≡ Receiver [] 0)) }
{
    bounded_with(alloc, places)
}

/// Makes a post's pass.
pub(crate) fn make_sender<T: Drop>(mail: &MailIn<T>, receiver: &mut Slip<T>) -> Slip<T>
    requires channel { IsSeatAt (sends_on mail.now) receiver.old }
    requires receiver { IsReceiver (view receiver.old) }
    ensures channel { IsSeatAt (sends_on mail.now) receiver.new
        × (receiver.new.id ≡ receiver.old.id) × IsSeatAt (sends_on mail.now) result }
    ensures receiver { view receiver.new ≡ with_made (view receiver.old) }
    ensures sender { view result ≡ next_sender (view receiver.old) }
{
    mail.another::<Makes>(receiver)
}

/// Sends a message.
///
/// # Errors
///
/// The message comes back if each place is taken, or no one receives any more.
pub(crate) fn send<T: Drop, R: Wait>(
    rt: &R,
    mail: &MailIn<T>,
    sender: &mut Slip<T>,
    message: T,
) -> Result<(), TrySendError<T>>
    requires channel { IsSeatAt (sends_on mail.now) sender.old }
    requires sender { IsSender (view sender.old) }
    ensures channel { IsSeatAt (sends_on mail.now) sender.new × (sender.new.id ≡ sender.old.id) }
    ensures sent { OnOk result (view sender.new ≡ with_put message (view sender.old)) }
    ensures back { IfErr result (λ e. (try_send_message e ≡ message)
        × (view sender.new ≡ view sender.old)) }
{
    mail.try_send_as::<Puts, R>(rt, sender, message)
}

/// Waits for the next message.
///
/// # Errors
///
/// `RecvError` if no post is left.
pub(crate) fn next<T: Drop, R: Wait>(
    rt: &R,
    mail: &MailOut<T>,
    receiver: &mut Slip<T>,
) -> Result<T, RecvError>
    requires channel { IsSeatAt (receives_on mail.now) receiver.old }
    requires receiver { IsReceiver (view receiver.old) }
    ensures channel { IsSeatAt (receives_on mail.now) receiver.new
        × (receiver.new.id ≡ receiver.old.id) }
    ensures took { IfOk result (λ x. Takes (view receiver.old) x (view receiver.new)) }
    ensures none { OnErr result (view receiver.new ≡ view receiver.old) }
{
    mail.recv_as::<Gets, R>(rt, receiver)
}

/// Receives a message if one waits.
///
/// # Errors
///
/// `TryRecvError` if the channel was empty at one moment of the call.
pub(crate) fn try_next<T: Drop, R: Wait>(
    rt: &R,
    mail: &MailOut<T>,
    receiver: &mut Slip<T>,
) -> Result<T, TryRecvError>
    requires channel { IsSeatAt (receives_on mail.now) receiver.old }
    requires receiver { IsReceiver (view receiver.old) }
    ensures channel { IsSeatAt (receives_on mail.now) receiver.new
        × (receiver.new.id ≡ receiver.old.id) }
    ensures took { IfOk result (λ x. Takes (view receiver.old) x (view receiver.new)) }
    ensures none { OnErr result (view receiver.new ≡ view receiver.old) }
{
    mail.try_recv_as::<Gets, R>(rt, receiver)
}
