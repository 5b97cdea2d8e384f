//! The records of a stream, taken as its octets come.
#![tactic(auto, using(ether_wire::proofs::Appending::with_text_twice, ether_wire::proofs::Appending::with_text_none))]

ghost use Rattle.std.specs.Prelude.{◌≡◌, ◌+◌, ◌*◌, ◌<◌, ◌≤◌, ◌^◌, [], ◌∷◌, true, false, length, Ok, IfOk, ℕ};
ghost use Rattle.ether_wire.specs.Ends.{Allows};
ghost use Rattle.route_wire.specs.declared.stream.Whole.TheVariants.{Rest};
ghost use Rattle.route_wire.specs.Record.{is_length};
ghost use Rattle.route_wire.specs.Feed.{shown, added};
ghost use Rattle.route_join.specs.Table.{AreOriginators};
ghost use Rattle.ev_report.specs.Report.{Becomes, table_after};
ghost use Rattle.ev_report.specs.Ends.{fault_in, fault_told};

use crate::ending::Ending;
use crate::input::{MOST_READS, PIECE};
use crate::notes::{put_fault, put_refused, put_truncated};
use arrayvec::ArrayVec;
use ether_wire::{Addr, Device, In, Out};
use route_join::{Table, TakeError};
use route_wire::{Answer, Feed, Truncated, Update};
use std::alloc::Global;

/// The records of a stream on their way into a table.
#[derive(Drop)]
pub(crate) struct Intake {
    /// The octets held of an incomplete record.
    feed: Feed,
    /// What took the updates so far.
    table: Table,
    /// How many records there were so far.
    count: u64,
    /// There was no memory for some update.
    is_out_of_memory: bool,
    /// No note has failed.
    is_told: bool,
}

impl Intake {
    ghost use Rattle.ev_report.specs.Ends.{Tells};
    ghost use Rattle.ev_report.specs.Notes.{end_note, is_broken};
    ghost use Rattle.ev_report.specs.Inner.Progressing.{state, new_intake, Refuses, TakesAnswers};
    ghost use Rattle.ev_report.specs.Inner.Progressing.{taken_by, shown_by, TakesOctets, TakesInput};

    /// Before anything was read, with a feed that holds nothing.
    pub(crate) fn new(alloc: Global, originators: ArrayVec<Addr, 64>, feed: Feed) -> Intake
        requires originators { AreOriginators originators.items }
        requires feed { feed.rest ≡ [] }
        ensures { result ≡ new_intake feed.newest originators.items }
    {
        Intake {
            feed,
            table: Table::new(alloc, originators),
            count: 0,
            is_out_of_memory: false,
            is_told: true,
        }
    }

    /// Counts a record that wasn't taken, and notes it.
    fn refuse<N: Out>(&mut self, refusal: u8, notes: &mut N)
        requires { self.old.count + 1 < 2 ^ 64 }
        ensures { Refuses refusal (state self.old (N.end notes.old))
            (state self.new (N.end notes.new)) }
    {
        self.count += 1;
        self.is_told = self.is_told && put_refused(notes, self.count, refusal).is_ok();
    }

    /// Takes the update of a record, or notes why not.
    fn take<N: Out>(&mut self, update: &Update, notes: &mut N)
        requires { self.old.count + 1 < 2 ^ 64 }
        ensures taken { TakesAnswers (Ok update.now ∷ []) (state self.old (N.end notes.old))
            (state self.new (N.end notes.new)) }
        ensures feed { self.new.feed ≡ self.old.feed }
        ensures count { self.new.count ≡ self.old.count + 1 }
    {
        match self.table.take(update) {
            Ok(_) => self.count += 1,
            Err(TakeError::UnknownOriginator) => {
                self.refuse(TakeError::UnknownOriginator.number(), notes);
            }
            Err(TakeError::NoMemory) => {
                self.is_out_of_memory = true;
                self.refuse(TakeError::NoMemory.number(), notes);
            }
        }
    }

    /// Takes octets at the front of a piece, up to a record's end, and returns their number.
    /// `update` is the place of a record's update: a result of that size would be copied.
    ///
    /// # Errors
    ///
    /// The fault that the stream shows then. All of the piece is taken with it.
    fn step<N: Out>(
        &mut self,
        piece: &[u8],
        update: &mut Update,
        notes: &mut N,
    ) -> Result<usize, u8>
        requires feed { shown self.old.feed ≡ Rest }
        requires piece { 0 < length piece.now }
        requires count { self.old.count + 1 < 2 ^ 64 }
        ensures taken { TakesOctets (taken_by result piece.now) (state self.old (N.end notes.old))
            (state self.new (N.end notes.new)) }
        ensures some { IfOk result (λ n. 0 < n) }
        ensures fits { IfOk result (λ n. n ≤ length piece.now) }
        ensures shows { shown self.new.feed ≡ shown_by result }
        ensures few { self.new.count ≤ self.old.count + 1 }
    {
        let taken = self.feed.take_into(piece, update);
        match taken.1 {
            Answer::More => {}
            Answer::Record => self.take(update, notes),
            Answer::Refused(refusal) => self.refuse(refusal, notes),
            Answer::Fault(fault) => return Err(fault),
        }
        Ok(taken.0)
    }

    /// Takes the octets of a piece.
    ///
    /// # Errors
    ///
    /// The fault that the stream shows then.
    fn take_piece<N: Out>(&mut self, piece: &[u8], notes: &mut N) -> Result<(), u8>
        requires feed { shown self.old.feed ≡ Rest }
        requires count { self.old.count + length piece.now < 2 ^ 64 }
        ensures taken { TakesOctets piece.now (state self.old (N.end notes.old))
            (state self.new (N.end notes.new)) }
        ensures shows { shown self.new.feed ≡ shown_by result }
        ensures few { self.new.count ≤ self.old.count + length piece.now }
    {
        let mut rest = piece;
        let mut update = Update::placeholder();
        while !rest.is_empty() {
            let n = self.step(rest, &mut update, notes)?;
            let (_, behind) = rest.split_at(n);
            rest = behind;
        }
        Ok(())
    }

    /// Takes a piece of input, and writes the notes on it.
    ///
    /// # Errors
    ///
    /// The fault that the stream shows then.
    fn piece<N: Out>(&mut self, piece: &[u8], notes: &mut N) -> Result<(), u8>
        requires feed { shown self.old.feed ≡ Rest }
        requires count { self.old.count + length piece.now < 2 ^ 64 }
        ensures taken { TakesOctets piece.now (state self.old (N.end notes.old))
            (state self.new (N.end notes.new)) }
        ensures shows { shown self.new.feed ≡ shown_by result }
        ensures few { self.new.count ≤ self.old.count + length piece.now }
    {
        let taken = self.take_piece(piece, notes);
        self.is_told = self.is_told && notes.flush().is_ok();
        taken
    }

    /// Takes the records of a reader, piece by piece, up to its end or the first fault: how the
    /// reading ended. After a fault, or a failed read, it makes no read more.
    pub(crate) fn take_input<R: In, N: Out>(&mut self, reader: &mut R, notes: &mut N) -> Ending
        requires feed { self.old.feed.rest ≡ [] }
        requires count { self.old.count ≡ 0 }
        requires reader { Allows (2 ^ 40) (R.end reader.old) }
        ensures taken { TakesInput self.old.feed.newest result (R.end reader.old) (R.end reader.new)
            (state self.old (N.end notes.old)) (state self.new (N.end notes.new)) }
        ensures few { self.new.count + 1 < 2 ^ 64 }
    {
        let mut buffer = [0; PIECE];
        for turn in 0..MOST_READS {
            match reader.read(&mut buffer) {
                Ok(0) => return Ending::Ended,
                Ok(n) => {
                    if let Err(fault) = self.piece(&buffer[..n], notes) {
                        return Ending::Faulty(fault);
                    }
                }
                Err(Device) => return Ending::Failed,
            }
        }
        Ending::Unended
    }

    /// Notes what broke the stream off, if anything did: whether so.
    pub(crate) fn note_end<N: Out>(&mut self, ending: Ending, notes: &mut N) -> bool
        requires none_held { is_length (shown self.old.feed) ≡ false }
        requires shows { fault_told ending ≡ fault_in (shown self.old.feed) }
        requires count { self.old.count + 1 < 2 ^ 64 }
        ensures broken { result ≡ is_broken ending self.old.feed.rest }
        ensures kept { self.new ≡ record self.old { is_told = self.new.is_told } }
        ensures told { Tells (N.end notes.old) (N.end notes.new) self.old.is_told self.new.is_told
            (end_note ending (self.old.count + 1) self.old.feed.rest) }
    {
        let number = self.count + 1;
        match ending {
            Ending::Failed | Ending::Unended => false,
            Ending::Faulty(fault) => {
                self.is_told = self.is_told && put_fault(notes, fault, number).is_ok();
                true
            }
            Ending::Ended => match self.feed.end() {
                Ok(()) => false,
                Err(Truncated { octets }) => {
                    self.is_told = self.is_told
                        && put_truncated(notes, octets as u64, number).is_ok();
                    true
                }
            },
        }
    }

    /// What took the updates.
    pub(crate) fn table(&self) -> &Table
        ensures { result.now ≡ self.now.table }
    {
        &self.table
    }

    /// Whether there was no memory for some update.
    pub(crate) fn is_out_of_memory(&self) -> bool
        ensures { result ≡ self.now.is_out_of_memory }
    {
        self.is_out_of_memory
    }

    /// Whether no note has failed.
    pub(crate) fn is_told(&self) -> bool
        ensures { result ≡ self.now.is_told }
    {
        self.is_told
    }
}
