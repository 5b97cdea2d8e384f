//! The place of an edge in the log: the right to add its entries.
ghost use Rattle.std.specs.Prelude.{◌≡◌, ◌<◌, ◌^◌, length, IfSome};
ghost use Rattle.std.specs.Bool.{OnFalse, OnTrue};
ghost use Rattle.logbook.specs.Pages.{nib, may_make_home};
ghost use mathlib.Core.List.{IsPrefix};
ghost use Rattle.ev_book.specs.declared.log_entry.LogEntry.TheVariants.{Does};
ghost use Rattle.ev_book.specs.Log.{IsHistory, Follows, world, count};
ghost use Rattle.ev_book.specs.Rule.{told, IsAdded};
ghost use Rattle.ev_book.specs.Standing.{Stands};

use crate::front::{Front, Naming};
use crate::log_entry::LogEntry;
use crate::rule::{Add, Adding, History, Look, Nothing};
use logbook::{Offer, Pen, Word};
use std::marker::Model;
use std::sync::Wait;

/// The place of an edge, its word, and the beginning of the log that ends with its last entry.
#[derive(Drop)]
pub struct Seat<J: Naming> {
    place: u64,
    entries: u64,
    word: Word<LogEntry, u64, History>,
    front: Front<J>,
}

impl<J: Naming> Model for Seat<J> {
    ghost use Rattle.std.specs.Coded.{codes};
    ghost use Rattle.std.specs.FinMap.{code};
    ghost use Rattle.ev_book.specs.Rule.{SeatState, IsSeat};

    ghost Value = { SeatState };

    ghost coded = { Prim.hlevel (codes, code) };

    ghost view = { λ s. record { place = s.place; log = s.front } };

    ghost invariant = { λ s. IsSeat J.book s.place s.entries s.word s.front };
}

impl<J: Naming> Seat<J> {
    /// A seat that has added nothing.
    pub(crate) fn new(place: u64, pen: &mut Pen, front: Front<J>) -> Seat<J>
        requires pen { pen.old.book ≡ J.book }
        requires nib { pen.old.nib ≡ nib may_make_home place 0 }
        requires none { count place front ≡ 0 }
        requires legal { IsHistory front }
        requires seated { place < length (world front).configs }
        ensures seat { (result.place ≡ place) × (result.log ≡ front) }
        ensures pen { pen.new.book ≡ pen.old.book }
    {
        Seat {
            place,
            entries: 0,
            word: Word::tracked(0, pen),
            front,
        }
    }

    /// Returns the edge's place.
    pub fn place(&self) -> u64
        ensures { result ≡ self.now.place }
    {
        self.place
    }

    /// Returns the beginning of the log that the seat has seen.
    pub fn front(&self) -> &Front<J>
        ensures log { result.now ≡ self.now.log }
        ensures legal { IsHistory self.now.log }
    {
        let _ = self.front.again();
        &self.front
    }

    /// Returns `true` if it can add no more.
    pub fn is_full(&self) -> bool
        ensures { OnFalse result (count self.now.place self.now.log < 2 ^ 62) }
    {
        self.entries >= 1 << 62
    }

    /// Waits until it can add an entry. An edge has room for 2^62.
    pub fn make_room<R: Wait>(&self, rt: &R)
        ensures { count self.now.place self.now.log < 2 ^ 62 }
    {
        for _ in rt.forever() {
            if !self.is_full() {
                return;
            }
        }
        unreachable!()
    }

    /// Returns `true` if this edge has only the entries that this seat has seen, as it always has.
    fn is_whole(&self, front: &Front<J>) -> bool
        requires { IsPrefix self.now.log front.now }
        ensures { OnTrue result
            (count self.now.place front.now ≡ count self.now.place self.now.log) }
    {
        let mut later = self.front.both(front);
        let mut offer: Offer<LogEntry, u64, History, Nothing> = later
            .seen
            .plain::<Nothing, u64, Look>(&0);
        let found = self.word.load::<Look, Nothing>(&mut later.seen, &mut offer);
        found == self.entries
    }

    /// Waits until this edge has only the entries that this seat has seen.
    pub fn settle<R: Wait>(&self, rt: &R, front: &Front<J>)
        requires { IsPrefix self.now.log front.now }
        ensures { count self.now.place front.now ≡ count self.now.place self.now.log }
    {
        for _ in rt.forever() {
            if self.is_whole(front) {
                return;
            }
        }
        unreachable!()
    }

    /// Adds an entry of this edge to the log, behind all that was seen here and in `with`, if the
    /// edge has had no more entries than this seat knows. It always does so: no other thread
    /// changes this edge's word.
    fn exchange(&self, with: &Front<J>, adding: &Adding<'_>) -> Option<Front<J>>
        requires place { adding.now.place ≡ self.now.place }
        requires room { count self.now.place self.now.log < 2 ^ 62 }
        requires follows { Follows (told (world self.now.log) (world with.now))
            (Does self.now.place adding.now.deed adding.now.edge.now) }
        ensures { IfSome result (λ log. IsPrefix with.now log
            × IsAdded self.now.place (count self.now.place self.now.log) self.now.log
            (Does self.now.place adding.now.deed adding.now.edge.now) log) }
    {
        let entries = self.entries;
        let mut both = self.front.both(with);
        let mut offer: Offer<LogEntry, u64, History, Nothing> = both
            .seen
            .plain::<Nothing, Adding<'_>, Add>(adding);
        let mut pen = both.seen.no_pen();
        let found = self
            .word
            .compare_exchange::<Add, Nothing>(
                entries,
                entries + 1,
                &mut both.seen,
                &mut offer,
                &mut pen,
            );
        if found == entries { Some(both) } else { None }
    }

    /// Adds an entry of this edge to the log, and returns the beginning that ends with it.
    fn added<R: Wait>(&self, rt: &R, with: &Front<J>, adding: &Adding<'_>) -> Front<J>
        requires place { adding.now.place ≡ self.now.place }
        requires room { count self.now.place self.now.log < 2 ^ 62 }
        requires follows { Follows (told (world self.now.log) (world with.now))
            (Does self.now.place adding.now.deed adding.now.edge.now) }
        ensures with { IsPrefix with.now result }
        ensures added { IsAdded self.now.place (count self.now.place self.now.log) self.now.log
            (Does self.now.place adding.now.deed adding.now.edge.now) result }
    {
        for _ in rt.forever() {
            if let Some(front) = self.exchange(with, adding) {
                return front;
            }
        }
        unreachable!()
    }

    /// Adds an entry of this edge to the log, behind all that was seen here and in `with`.
    pub fn add<R: Wait>(&mut self, rt: &R, with: &Front<J>, adding: &Adding<'_>)
        requires place { adding.now.place ≡ self.old.place }
        requires room { count self.old.place self.old.log < 2 ^ 62 }
        requires follows { Follows (told (world self.old.log) (world with.now))
            (Does self.old.place adding.now.deed adding.now.edge.now) }
        ensures place { self.new.place ≡ self.old.place }
        ensures with { IsPrefix with.now self.new.log }
        ensures added { IsAdded self.old.place (count self.old.place self.old.log) self.old.log
            (Does self.old.place adding.now.deed adding.now.edge.now) self.new.log }
        ensures stands { Stands self.new.place self.new.log adding.now.edge.now }
    {
        let front = self.added(rt, with, adding);
        self.entries += 1;
        self.front = front;
    }
}
