//! The knowledge of a pass of a mailbox's channel. It exists in proofs only.

use std::collections::LinkedList;

/// The knowledge of a pass. No value of this type is made.
pub(crate) enum View<T> {
    /// A post: its number, and the messages that it sent.
    Sender(u64, LinkedList<T>),
    /// The inbox: the messages that it received, each with the number of its post, and how many
    /// posts were made.
    Receiver(LinkedList<(u64, T)>, u64),
}
