//! Laws, as functions that do nothing: the contract is the law.
ghost use Rattle.ev_peers.specs.Laws.{AnnouncedIsSent, EachTakenWasSent, EachSentIsTaken};

/// The announcements of a worker's edge are sent to each of the other edges, in their order, each
/// once, after the letters that the worker has sent there before. None is sent to its own edge.
pub fn announced_is_sent()
    ensures { AnnouncedIsSent }
{}

/// Each message that a running edge's worker of updates handles was sent to the edge's mailbox, by
/// one of the posts that were made for it.
pub fn each_taken_was_sent()
    ensures { EachTakenWasSent }
{}

/// Each message that a post has sent to the mailbox of an edge whose worker of updates has ended
/// was handled by that worker, or waits: then it came after the end of the mailbox.
pub fn each_sent_is_taken()
    ensures { EachSentIsTaken }
{}
