//! Laws, as functions that do nothing: the contract is the law.
ghost use Rattle.ev_exchange.specs.Laws.{OwnUpdatesAre, SaidIsCarried, NewestArrives, OwnRegistersAgree, BothAgree, MeetingAgrees, StreamCarries, JoinedAgrees};
ghost use Rattle.ev_exchange.specs.JoinedProcesses.{ProcessesAgree, EarlierLivesEnd};
ghost use Rattle.ev_exchange.specs.Sessions.{MarksAreDue, OverdueAfterHold};

/// The updates that an edge sends from its table at the beginning are its own registers, all of
/// them, each with its value, in the order of a report.
pub fn own_updates_are()
    ensures { OwnUpdatesAre }
{}

/// The updates that edges send from their tables at the beginning, followed by those that they
/// announce since, have of each edge exactly the updates that it sent and announced.
pub fn said_is_carried()
    ensures { SaidIsCarried }
{}

/// A table that takes the written updates has, at each register of the edge that sends them, the
/// newer of its own earlier value and the value in the edge's own table.
pub fn newest_arrives()
    ensures { NewestArrives }
{}

/// Once all written updates are taken, each register of the edge is as in the edge's own table,
/// provided that the edge itself announced each of its updates that were taken.
pub fn own_registers_agree()
    ensures { OwnRegistersAgree }
{}

/// Two edges whose streams are joined both ways have equal tables and reports once all is
/// delivered, if all their registers are of these two edges.
pub fn both_agree()
    ensures { BothAgree }
{}

/// A table that had taken any updates, including those of an edge's earlier lives, has each
/// register of the edge as the edge's own table has it. The premise is that the table has taken the
/// updates that the edge's process sends and announces, and the edge has taken the updates that are
/// sent back to it from that table.
pub fn meeting_agrees()
    ensures { MeetingAgrees }
{}

/// The stream of a process has of each of its edges exactly the updates that the edge sent and
/// announced, provided that the other side doesn't name that edge: updates of other edges that are
/// sent back make no difference.
pub fn stream_carries()
    ensures { StreamCarries }
{}

/// Two processes are joined. A table of one had taken any updates, including those of an earlier
/// life of an edge of the other. Once both streams are taken, the table has each register of that
/// edge as the edge's own table has it, since its process sent back what it held.
pub fn joined_agrees()
    ensures { JoinedAgrees }
{}

/// Two processes of any number of edges each are joined. Whatever their edges had taken before,
/// including updates of earlier lives, once both streams are taken each table of one process has
/// each register of each edge of the other process as that edge's own table has it. The premises
/// are that each process sends back what its tables hold of the other's edges, and that its tables
/// agree on these registers.
pub fn processes_agree()
    ensures { ProcessesAgree }
{}

/// If an edge's own table advertises only in the edge's present life, then each table of the other
/// process has no advert of an earlier life of the edge any more, under the premises of
/// `processes_agree`.
pub fn earlier_lives_end()
    ensures { EarlierLivesEnd }
{}

/// If no step is due at a second, the edges elsewhere that are marked as away are exactly those
/// that have had no session for `hold` seconds.
pub fn marks_are_due()
    ensures { MarksAreDue }
{}

/// The last connection of an edge elsewhere has ended at a second, and none has begun since.
/// Whatever happens to other edges, the edge is overdue exactly if `hold` seconds have passed since
/// then, and `hold` isn't 0.
pub fn overdue_after_hold()
    ensures { OverdueAfterHold }
{}
