//! The journal of an edge: the updates that it took, and its own, in the order in which they came.
//! It is compacted where it has grown to twice as many as the edge's table has registers.
ghost use Rattle.std.specs.Prelude.{◌≡◌, ◌+◌, ◌*◌, ◌<◌, ◌≤◌, ◌++◌, [], true, length, OnOk, OnErr, IfSome, vec_len, vec_capacity};
ghost use Rattle.std.specs.Bool.{OnFalse};
ghost use Rattle.route_wire.specs.Record.{Answers};
ghost use Rattle.ether_wire.specs.Ends.{Puts};
ghost use Rattle.route_join.specs.Table.{IsTableOf};
ghost use Rattle.route_join.specs.Updates.{all_updates};
ghost use Rattle.ev_edge.specs.declared.reply.Reply.{Reply as Replied};
ghost use Rattle.ev_edge.specs.Edge.{table_of};
ghost use Rattle.ev_edge.specs.Steps.{answered as stepped};
ghost use Rattle.ev_edge.specs.Changes.{accepted, brought};
ghost use Rattle.ev_book.specs.declared.mark.Mark.{Mark as Marked};
ghost use Rattle.ev_book.specs.Mark.{Holds, mark_of};
ghost use Rattle.ev_book.specs.Journal.{Compacts, register_count, IsLeft, IsKept, IsFull};
ghost use Rattle.ev_book.specs.Inner.Journal.{HasOwnSince, AppendsOwn};
ghost use Rattle.ev_book.specs.Entering.{Grows, WritesOrNot, answered, may_write, touched, touched_by};
ghost use Rattle.ev_book.specs.Inner.Entering.{most_written};
ghost use Rattle.route_wire.specs.Records.{records_of, all_ok};

use crate::refusal::BookRefusal;
use ether_wire::{Device, Out};
use ev_edge::{Edge, Event, Refusal, Reply};
use route_join::Table;
use route_wire::{Update, write};
use std::alloc::AllocError;

/// How many updates a journal may have beside twice as many as its table has registers: so that of
/// an edge with few registers it isn't compacted at every few calls.
const SPARE: usize = 64;

/// The updates that an edge took and said.
#[derive(Drop)]
pub(crate) struct Journal {
    /// The updates, in the order in which they came since it was compacted.
    pub(crate) updates: Vec<Update>,
    /// How many there were when it was compacted last: as many as its table had registers then.
    pub(crate) least: usize,
}

/// Appends the own updates with the numbers after this one, for which there is room.
pub(crate) fn append_own(journal: &mut Vec<Update>, edge: &Edge, before: u64)
    requires numbered { HasOwnSince edge.now.routes.speaker before }
    requires room { vec_len journal.old + edge.now.routes.speaker.counter
        ≤ vec_capacity journal.old + before }
    ensures { AppendsOwn edge.now.routes.speaker before journal.old.items journal.new.items }
{
    edge.always_good();
    let count = edge.counter() - before;
    for offset in 0..count {
        let Some(update) = edge.own_at(before + offset + 1) else {
            unreachable!()
        };
        journal.push_reserved(update);
    }
}

/// Appends the update that an event took, for which there is room.
fn append_taken(journal: &mut Vec<Update>, event: &Event<'_>, answer: &Result<(), Refusal>)
    requires { vec_len journal.old + length (brought event.now) ≤ vec_capacity journal.old }
    ensures items { (reply : Replied) → journal.new.items
        ≡ journal.old.items ++ accepted event.now (stepped answer.now reply) }
    ensures len { vec_len journal.new ≤ vec_len journal.old + length (brought event.now) }
    ensures capacity { vec_capacity journal.new ≡ vec_capacity journal.old }
{
    if answer.is_err() {
        return;
    }
    if let Event::Take(update) = event {
        journal.push_reserved(*update);
    }
}

/// Performs one event of the edge and overwrites the reply. The updates that the edge took and made
/// go to the end of the journal, which has room for them.
fn step_within(
    edge: &mut Edge,
    journal: &mut Vec<Update>,
    event: &Event<'_>,
    reply: &mut Reply,
) -> Result<(), Refusal>
    requires table { IsTableOf journal.old.items (table_of edge.old) }
    requires room { vec_len journal.old + most_written event.now edge.old.routes
        ≤ vec_capacity journal.old }
    ensures grows { Grows edge.old journal.old.items event.now
        (stepped result reply.new) edge.new journal.new.items }
    ensures table { IsTableOf journal.new.items (table_of edge.new) }
    ensures registers { register_count (table_of edge.old) ≤ register_count (table_of edge.new) }
    ensures marks { (m : Marked) → Holds (table_of edge.old) m → Holds (table_of edge.new) m }
    ensures mark { IfSome (touched_by event.now (stepped result reply.new))
        (λ u. Holds (table_of edge.new) (mark_of u)) }
{
    edge.always_good();
    let before = edge.counter();
    let answer = edge.step_into(event, reply);
    append_taken(journal, event, &answer);
    append_own(journal, edge, before);
    answer
}

/// Whether an event can make the edge take or say an update.
fn may_write(event: &Event<'_>) -> bool
    ensures { result ≡ may_write event.now }
{
    match event {
        Event::TunnelFrame(..) | Event::Thaw(_) | Event::Announce => false,
        Event::Away(_) | Event::Back(_) => false,
        _ => true,
    }
}

/// Performs one event of the edge and overwrites the reply. The updates that the edge took and made
/// go to the end of the rest of the journal.
pub(crate) fn step(
    edge: &mut Edge,
    journal: &mut Journal,
    event: &Event<'_>,
    reply: &mut Reply,
) -> Result<(), BookRefusal>
    requires table { IsTableOf journal.old.updates.items (table_of edge.old) }
    requires least { journal.old.least ≤ register_count (table_of edge.old) }
    ensures writes { WritesOrNot edge.old journal.old.updates.items event.now
        (answered result reply.new) edge.new journal.new.updates.items }
    ensures table { IsTableOf journal.new.updates.items (table_of edge.new) }
    ensures least { journal.new.least ≤ register_count (table_of edge.new) }
    ensures marks { (m : Marked) → Holds (table_of edge.old) m → Holds (table_of edge.new) m }
    ensures mark { IfSome (touched_by event.now (answered result reply.new))
        (λ u. Holds (table_of edge.new) (mark_of u)) }
{
    if journal.make_room(edge, event).is_err() {
        return Err(BookRefusal::NoRoom);
    }
    match step_within(edge, &mut journal.updates, event, reply) {
        Ok(()) => Ok(()),
        Err(refusal) => Err(BookRefusal::Edge(refusal)),
    }
}

/// The update that an event took or announced.
pub(crate) fn touched(event: &Event<'_>, reply: &Reply) -> Option<Update>
    ensures { result ≡ touched event.now reply.now }
{
    match event {
        Event::Take(update) => Some(*update),
        Event::Announce => reply.announced,
        _ => None,
    }
}

/// Leaves the table's updates, each of which is there.
fn leave_newest(updates: &mut Vec<Update>, table: &Table)
    requires { IsTableOf updates.old.items table.now }
    ensures updates { updates.new.items ≡ all_updates table.now }
    ensures compacts { Compacts updates.old.items updates.new.items }
    ensures table { IsTableOf updates.new.items table.now }
{
    updates.clear();
    for update in table.updates() {
        updates.push_reserved(update);
    }
}

impl Journal {
    /// Leaves one update of each register, the newest, in the order of a report.
    pub(crate) fn compact(&mut self, table: &Table)
        requires { IsTableOf self.old.updates.items table.now }
        ensures updates { self.new.updates.items ≡ all_updates table.now }
        ensures compacts { Compacts self.old.updates.items self.new.updates.items }
        ensures table { IsTableOf self.new.updates.items table.now }
        ensures least { self.new.least ≡ register_count table.now }
    {
        leave_newest(&mut self.updates, table);
        self.least = self.updates.len();
    }

    /// Whether as many updates as there were when it was compacted last came since, and some more.
    fn is_due(&self) -> bool
        requires { self.now.least ≤ vec_len self.now.updates }
        ensures { OnFalse result (vec_len self.now.updates ≤ 2 * self.now.least + 64) }
    {
        let came = self.updates.len() - self.least;
        came > SPARE && came - SPARE > self.least
    }

    /// Compacts the journal when it is due. It then drops more than half of its updates.
    fn keep_short(&mut self, table: &Table)
        requires table { IsTableOf self.old.updates.items table.now }
        requires least { self.old.least ≤ register_count table.now }
        ensures kept { IsKept table.now self.old.updates.items self.new.updates.items }
        ensures table { IsTableOf self.new.updates.items table.now }
        ensures least { self.new.least ≤ register_count table.now }
    {
        if self.is_due() {
            self.compact(table);
        }
    }

    /// Compacts it where any update came since it was compacted last.
    fn empty_out(&mut self, table: &Table)
        requires table { IsTableOf self.old.updates.items table.now }
        requires least { self.old.least ≤ register_count table.now }
        ensures left { IsLeft table.now self.old.updates.items self.new.updates.items }
        ensures full { vec_len self.new.updates ≡ register_count table.now }
        ensures table { IsTableOf self.new.updates.items table.now }
        ensures least { self.new.least ≤ register_count table.now }
    {
        if self.updates.len() > self.least {
            self.compact(table);
        }
    }

    /// Makes room for the updates that an event of the edge can append; an event that appends none
    /// needs none. If memory is refused, it compacts the journal first, which may make room.
    fn make_room(&mut self, edge: &Edge, event: &Event<'_>) -> Result<(), AllocError>
        requires table { IsTableOf self.old.updates.items (table_of edge.now) }
        requires least { self.old.least ≤ register_count (table_of edge.now) }
        ensures kept { OnOk result (IsKept (table_of edge.now)
            self.old.updates.items self.new.updates.items) }
        ensures writer { OnErr result (may_write event.now ≡ true) }
        ensures full { OnErr result (IsFull (table_of edge.now)
            self.old.updates.items self.new.updates.items) }
        ensures missing { OnErr result (vec_capacity self.new.updates
            < vec_len self.new.updates + most_written event.now edge.now.routes) }
        ensures table { IsTableOf self.new.updates.items (table_of edge.now) }
        ensures least { self.new.least ≤ register_count (table_of edge.now) }
        ensures room { OnOk result (vec_len self.new.updates
            + most_written event.now edge.now.routes ≤ vec_capacity self.new.updates) }
    {
        edge.always_good();
        self.keep_short(edge.table());
        if !may_write(event) {
            return Ok(());
        }
        let most = edge.entries() + 2;
        if self.updates.reserve(most).is_ok() {
            return Ok(());
        }
        self.empty_out(edge.table());
        self.updates.reserve(most)
    }
}

/// Writes the records of updates, one after the other.
pub(crate) fn put_records<W: Out>(updates: &[Update], out: &mut W) -> Result<(), Device>
    ensures puts { Puts (W.end out.old) (W.end out.new) (records_of updates.now) result }
    ensures again { OnOk result (Answers (records_of updates.now) (all_ok updates.now) []) }
{
    for update in updates {
        let record = write(update);
        out.put(record.as_slice())?;
    }
    Ok(())
}
