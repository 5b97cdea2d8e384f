//! The rule of a mailbox's channel, and the effect of each call on a pass.
ghost use Rattle.std.specs.Prelude.{◌≡◌, []};
ghost use Rattle.ev_mailboxes.specs.Delivery.{Delivers};
ghost use Rattle.ev_mailboxes.specs.Inner.Calls.{with_put, with_made, next_sender, Takes};
ghost use Rattle.ev_mailboxes.specs.declared.view.View.TheVariants.{Receiver};

use crate::view::View;
use crossbeam_channel::protocol::{Lesson, Outcome, Protocol, Split};

/// The rule: the received messages, followed by the waiting ones, are the sent ones, by post.
pub(crate) struct Delivery;

impl<T> Protocol<T, View<T>> for Delivery {
    ghost holds = { Delivers };

    ghost first = { Receiver [] 0 };
}

/// The inbox makes a post.
pub(crate) struct Makes;

impl<T> Split<View<T>> for Makes {
    ghost left = { with_made };

    ghost right = { next_sender };
}

/// A message was sent.
pub(crate) struct Puts;

impl<T> Outcome<T, View<T>> for Puts {
    ghost then = { λ v x w. w ≡ with_put x v };
}

impl<T> Lesson<T, View<T>> for Puts {
    ghost use Rattle.std.specs.Prelude.{⊤};

    ghost fact = { λ v items. ⊤ };
}

/// A message was received, or the mailbox was empty.
pub(crate) struct Gets;

impl<T> Outcome<T, View<T>> for Gets {
    ghost then = { Takes };
}

impl<T> Lesson<T, View<T>> for Gets {
    ghost use Rattle.std.specs.Prelude.{⊤};

    ghost fact = { λ v items. ⊤ };
}
