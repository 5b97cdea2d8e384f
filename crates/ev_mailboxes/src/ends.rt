//! The ends of a mailbox. Each owns its end of the channel and its pass.
ghost use Rattle.std.specs.Prelude.{◌≡◌};
ghost use Rattle.crossbeam_channel.specs.Claims.{view, IsSeatAt};
ghost use Rattle.crossbeam_channel.specs.Ends.{sends_on, receives_on};
ghost use Rattle.ev_mailboxes.specs.Delivery.{IsSender, IsReceiver};

use crate::channel::{MailIn, MailOut, Slip};

/// Sends messages to a mailbox.
#[derive(Drop)]
pub struct Post<T: Drop> {
    pub(crate) mail: MailIn<T>,
    pub(crate) slip: Slip<T>,
    ghost belongs: { IsSeatAt (sends_on mail) slip },
    ghost sends: { IsSender (view slip) },
}

/// Receives the messages of a mailbox.
#[derive(Drop)]
pub struct Inbox<T: Drop> {
    pub(crate) mail_in: MailIn<T>,
    pub(crate) mail_out: MailOut<T>,
    pub(crate) slip: Slip<T>,
    ghost same: { receives_on mail_out ≡ sends_on mail_in },
    ghost belongs: { IsSeatAt (receives_on mail_out) slip },
    ghost receives: { IsReceiver (view slip) },
}
