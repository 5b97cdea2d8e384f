//! The messages to an edge, and the letters that carry them to its mailbox.
ghost use Rattle.std.specs.Prelude.{◌≡◌};
ghost use Rattle.ev_mailboxes.specs.Letter.{coming};

use crate::request::Request;

/// A message to an edge, from another edge or from the operator. `U` is the type of its updates.
#[derive(Drop)]
pub enum EdgeMessage<U: Drop> {
    /// An update that another edge has announced.
    Record(U),
    /// Another edge has room for updates again: it was behind and caught up, or it takes no more
    /// updates.
    Room,
    /// A request of the operator.
    Ask(Request),
}

/// A letter in the mailbox of an edge.
#[derive(Drop)]
pub enum Letter<U: Drop> {
    /// A message.
    Of(EdgeMessage<U>),
    /// The end: the edge's worker takes no letter that comes after it.
    Stop,
}

/// Returns the message of a letter, or `None` for the end.
pub(crate) fn coming<U: Drop>(letter: Letter<U>) -> Option<EdgeMessage<U>>
    ensures { result ≡ coming letter }
{
    match letter {
        Letter::Of(message) => Some(message),
        Letter::Stop => None,
    }
}
