//! Laws, as functions that do nothing: the contract is the law.
ghost use Rattle.ev_mailboxes.specs.Laws.{ReceivedAndWaitingAreSent, ReceivedWasSent};

/// Of each post, the messages that the inbox received, followed by those that wait, are the
/// messages that the post sent, in their order, each once.
pub fn received_and_waiting_are_sent<T>()
    ensures { ReceivedAndWaitingAreSent T }
{}

/// Each message that the inbox received was sent by a post.
pub fn received_was_sent<T>()
    ensures { ReceivedWasSent T }
{}
