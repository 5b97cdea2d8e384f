//! The book of an edge.
ghost use Rattle.std.specs.Prelude.{◌≡◌, ◌+◌, ◌<◌, ◌≤◌, true, false, [], vec_len, IfOk, OnOk, Ok, Err};
ghost use Rattle.route_wire.specs.Record.{Answers};
ghost use Rattle.ether_wire.specs.Ends.{Puts};
ghost use Rattle.route_join.specs.Owner.{owner};
ghost use Rattle.route_join.specs.Report.{report_of};
ghost use Rattle.route_join.specs.Updates.{all_updates};
ghost use Rattle.ev_edge.specs.Config.{IsConfig};
ghost use Rattle.ev_edge.specs.Edge.{IsGoodEdge, table_of};
ghost use Rattle.ev_book.specs.Mark.{HoldsAt};
ghost use Rattle.ev_book.specs.Book.{fits, count_sum};
ghost use Rattle.ev_book.specs.Journal.{Compacts};
ghost use Rattle.ev_book.specs.Inner.Journal.{HasOwnSince, AppendsOwn};
ghost use Rattle.ev_book.specs.Entering.{CallsBook, Enters, answered, is_spent, calls_counted, mark_then, touched_by};
ghost use Rattle.ev_book.specs.Opening.{IsOpened, opened_passes};
ghost use Rattle.ev_book.specs.Closing.{counts_of, sum_of, AreNumbered, TellsEach};
ghost use Rattle.ev_book.specs.Laws.{Replays, ReportsAs, listening};
ghost use Rattle.route_wire.specs.Records.{records_of, all_ok};

use crate::journal::{Journal, append_own, put_records, step, touched};
use crate::mark::{Mark, mark_of, same_mark};
use crate::pass::{Kept, Pass, Totals, merged, own_counts, unused};
use crate::refusal::BookRefusal;
use ether_wire::{Addr, Device, Mac, Out, Vni};
use ev_edge::{Edge, EdgeConfig, Event, Reply};
use route_wire::Update;
use std::alloc::{AllocError, Global};
use std::marker::Model;
use std::sync::ledger::{Blank, Book as Sum, Ledger, Share};

/// How many calls a pass can have.
const SPENT: u64 = 1 << 55;

/// An edge, the journal of the updates that it took and made, and the count and mark of each pass.
///
/// The table of the journal's updates is the edge's table. The table has the update that each pass
/// took or announced last, or a newer value of that register. The counts together are those of all
/// passes.
#[derive(Drop)]
pub struct Book<L: Ledger> {
    edge: Edge,
    journal: Journal,
    kept: Vec<Kept>,
    sum: Sum<L>,
}

impl<L: Ledger> Model for Book<L> {
    ghost use Rattle.std.specs.Prelude.{◌≤◌};
    ghost use Rattle.std.specs.Coded.{codes};
    ghost use Rattle.std.specs.FinMap.{code};
    ghost use Rattle.ev_edge.specs.Edge.{table_of};
    ghost use Rattle.ev_book.specs.Book.{BookState, book_of, IsGoodBook};
    ghost use Rattle.ev_book.specs.Journal.{register_count};

    ghost Value = { BookState };

    ghost coded = { Prim.hlevel (codes, code) };

    ghost view = { λ b. book_of b.edge b.journal.updates.items b.kept.items };

    ghost invariant = { λ b.
        IsGoodBook (book_of b.edge b.journal.updates.items b.kept.items) b.sum.total
        × (b.journal.least ≤ register_count (table_of b.edge)) };
}

/// The own updates of an edge that has just opened.
fn first_journal(alloc: Global, edge: &Edge) -> Result<Journal, AllocError>
    requires { HasOwnSince edge.now.routes.speaker 0 }
    ensures own { IfOk result
        (λ journal. AppendsOwn edge.now.routes.speaker 0 [] journal.updates.items) }
    ensures least { IfOk result (λ journal. journal.least ≡ 0) }
{
    let mut updates = Vec::with_capacity(alloc, edge.counter() as usize)?;
    append_own(&mut updates, edge, 0);
    Ok(Journal { updates, least: 0 })
}

/// So many passes, each with a part of the share.
fn new_passes<L: Ledger>(
    alloc: Global,
    share: Share<L>,
    passes: usize,
) -> Result<Vec<Pass<L>>, AllocError>
    requires { (share.parts ≡ passes) × (share.amount ≡ 0) }
    ensures items { IfOk result (λ made. made.items ≡ opened_passes passes) }
    ensures len { IfOk result (λ made. vec_len made ≡ passes) }
{
    let mut share = share;
    let mut made = Vec::with_capacity(alloc, passes)?;
    for number in 0..passes {
        made.push(Pass::new(number, share.split_off(1, 0)))?;
    }
    Ok(made)
}

impl<L: Ledger> Book<L> {
    /// A book over an edge that opens, and its passes, as many as the blank has parts (1 to 256).
    /// The edge's adverts are the journal.
    ///
    /// # Errors
    ///
    /// `AllocError` if memory is refused.
    pub fn open(
        alloc: Global,
        blank: Blank,
        config: EdgeConfig,
        passes: usize,
    ) -> Result<(Book<L>, Vec<Pass<L>>), AllocError>
        requires name { blank.name ≡ L.name }
        requires parts { blank.parts ≡ L.parts }
        requires each { blank.parts ≡ passes }
        requires some { (0 < passes) × (passes ≤ 256) }
        requires config { IsConfig config }
        ensures book { IfOk result (λ r. IsOpened config passes r.0) }
        ensures passes { IfOk result (λ r. r.1.items ≡ opened_passes passes) }
        ensures len { IfOk result (λ r. vec_len r.1 ≡ passes) }
    {
        let edge = Edge::open(alloc, config)?;
        let journal = first_journal(alloc, &edge)?;
        let kept = unused(alloc, passes)?;
        let (sum, share) = blank.open::<L>();
        let made = new_passes(alloc, share, passes)?;
        let book = Book {
            edge,
            journal,
            kept,
            sum,
        };
        Ok((book, made))
    }

    /// A law, which does nothing: a table that takes the journal's updates has the edge's
    /// registers and its report.
    pub fn always_replays(&self)
        ensures replays { Replays self.now }
        ensures good { IsGoodEdge self.now.edge }
    {
        self.edge.always_good();
        let _listed = self.edge.table().originators();
        let _ = &self.journal;
    }

    /// The book's edge.
    pub fn edge(&self) -> &Edge
        ensures { result.now ≡ self.now.edge }
    {
        &self.edge
    }

    /// Returns `true` if the book's count and mark of the pass are the pass's own.
    fn fits(&self, pass: &Pass<L>) -> bool
        ensures { result ≡ fits self.now pass.now }
    {
        match self.kept.get(pass.number) {
            Some(kept) => kept.count == pass.count && same_mark(&kept.mark, &pass.mark),
            None => false,
        }
    }

    /// Counts a call, enters it, and keeps its mark.
    fn enter_counted(
        &mut self,
        pass: &mut Pass<L>,
        event: &Event<'_>,
        reply: &mut Reply,
    ) -> Result<(), BookRefusal>
        requires fits { fits self.old pass.old ≡ true }
        requires unspent { is_spent pass.old ≡ false }
        ensures { Enters self.old pass.old event.now (answered result reply.new) self.new pass.new }
    {
        self.sum.add(&mut pass.share, 1);
        pass.count += 1;
        let result = step(&mut self.edge, &mut self.journal, event, reply);
        pass.mark = mark_after(pass.mark, event, &result, reply);
        self.kept[pass.number] = Kept {
            count: pass.count,
            mark: pass.mark,
        };
        result
    }

    /// Enters an event: one call more for the pass, and one step of the edge. The journal grows by
    /// the update that the event took and by the own updates that it made; before that it is
    /// compacted where it has grown to twice as many as the table has registers, and 64 more.
    ///
    /// # Errors
    ///
    /// `PassStrange` exactly if the pass's count or mark differs from the book's, else `PassSpent`
    /// exactly at 2^55 calls: then nothing changed. `NoRoom` if the journal's room is refused to an
    /// event that may write, though the journal has no more updates than the table has registers,
    /// and `Edge` as the edge refuses: then the call is counted, the journal may be compacted, and
    /// nothing else changed.
    pub fn enter(&mut self, pass: &mut Pass<L>, event: &Event<'_>) -> Result<Reply, BookRefusal>
        ensures calls { CallsBook self.old pass.old event.now result self.new pass.new }
        ensures number { pass.new.number ≡ pass.old.number }
        ensures count { pass.new.count ≡ pass.old.count + calls_counted result }
    {
        let mut reply = Reply::nothing();
        match self.enter_into(pass, event, &mut reply) {
            Ok(()) => Ok(reply),
            Err(refusal) => Err(refusal),
        }
    }

    /// Does the same and overwrites another reply: a caller that reuses one reply avoids copies of
    /// a whole one. After a refusal the content of the reply is unspecified.
    ///
    /// # Errors
    ///
    /// As those of `enter`.
    pub fn enter_into(
        &mut self,
        pass: &mut Pass<L>,
        event: &Event<'_>,
        reply: &mut Reply,
    ) -> Result<(), BookRefusal>
        ensures calls { CallsBook self.old pass.old event.now
            (answered result reply.new) self.new pass.new }
        ensures number { pass.new.number ≡ pass.old.number }
        ensures count { pass.new.count
            ≡ pass.old.count + calls_counted (answered result reply.new) }
    {
        if !self.fits(pass) {
            return Err(BookRefusal::PassStrange);
        }
        if pass.count >= SPENT {
            return Err(BookRefusal::PassSpent);
        }
        self.enter_counted(pass, event, reply)
    }

    /// Returns the owner of a MAC address in a VNI, by the present table: it has the update that
    /// the pass took or announced last, or a newer value of that register.
    ///
    /// # Errors
    ///
    /// `PassStrange` exactly if the pass's count or mark differs from the book's.
    pub fn look_owner(
        &self,
        pass: &Pass<L>,
        vni: Vni,
        mac: Mac,
    ) -> Result<Option<Addr>, BookRefusal>
        ensures strange { fits self.now pass.now ≡ false → result ≡ Err BookRefusal.PassStrange }
        ensures found { fits self.now pass.now ≡ true
            → result ≡ Ok (owner (table_of self.now.edge) vni mac) }
        ensures mark { fits self.now pass.now ≡ true
            → HoldsAt (table_of self.now.edge) pass.now.mark }
    {
        if !self.fits(pass) {
            return Err(BookRefusal::PassStrange);
        }
        let _journal = &self.journal;
        Ok(self.edge.table().owner(vni, mac))
    }

    /// Leaves one update of each register in the journal, the newest, in the order of a report. It
    /// takes no memory, and steps in proportion to the journal's updates.
    pub fn compact(&mut self)
        ensures edge { self.new.edge ≡ self.old.edge }
        ensures kept { self.new.kept ≡ self.old.kept }
        ensures journal { self.new.journal ≡ all_updates (table_of self.old.edge) }
        ensures compacts { Compacts self.old.journal self.new.journal }
    {
        self.journal.compact(self.edge.table());
    }

    /// Writes the journal's updates in their order, each as its record. It takes no memory. A table
    /// that takes the records' updates has the edge's report.
    ///
    /// # Errors
    ///
    /// `Device` exactly where a call of the writer failed; then no further call is made.
    pub fn write_journal<W: Out>(&self, out: &mut W) -> Result<(), Device>
        ensures puts { Puts (W.end out.old) (W.end out.new) (records_of self.now.journal) result }
        ensures again { OnOk result
            (Answers (records_of self.now.journal) (all_ok self.now.journal) []) }
        ensures report { OnOk result (ReportsAs (listening self.now) (records_of self.now.journal)
            (report_of (table_of self.now.edge))) }
    {
        self.always_replays();
        put_records(self.journal.updates.as_slice(), out)
    }

    /// Ends the book, with all its passes. Returns its edge, and the number of counted calls of
    /// each pass. These are the passes' own counts, and their sum is the book's count.
    pub fn close(self, passes: Vec<Pass<L>>) -> (Edge, Totals)
        requires all { vec_len passes ≡ L.parts }
        requires some { (0 < vec_len passes) × (vec_len passes ≤ 256) }
        ensures edge { result.0 ≡ self.edge }
        ensures counts { result.1 ≡ counts_of passes.items }
        ensures each { AreNumbered passes.items → TellsEach passes.items result.1 }
        ensures sum { sum_of result.1 ≡ count_sum self.kept }
    {
        let Book {
            edge,
            journal: _,
            kept: _,
            sum: mut book,
        } = self;
        let counts = own_counts(passes.as_slice());
        let mut all = merged(passes);
        book.audit(&mut all);
        (edge, Totals { counts })
    }
}

/// The mark of a pass after a call.
fn mark_after(
    mark: Option<Mark>,
    event: &Event<'_>,
    answer: &Result<(), BookRefusal>,
    reply: &Reply,
) -> Option<Mark>
    ensures { result ≡ mark_then mark (touched_by event.now (answered answer.now reply.now)) }
{
    match answer {
        Ok(()) => match touched(event, reply) {
            Some(update) => Some(mark_of(&update)),
            None => mark,
        },
        Err(_) => mark,
    }
}
