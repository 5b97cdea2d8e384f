//! Passes on the records that come over a connection as they come, and counts refused ones.
ghost use Rattle.std.specs.Prelude.{◌≡◌, ◌<◌, ◌≤◌, ◌++◌, ◌∷◌, [], ◌==◌, ℕ, List, Result, Err, take, length, slice_index, true};
ghost use Rattle.route_wire.specs.Fields.{Fields};
ghost use Rattle.route_wire.specs.Feed.{is_rest, shown};
ghost use Rattle.route_wire.specs.declared.stream.Next.TheVariants.{More};
ghost use Rattle.ev_links.specs.Coming.{behind};
ghost use Rattle.ev_exchange.specs.Receiving.{Given, times, news_of, AreCounts, HasReceived, Delivers};
ghost use Rattle.ev_exchange.specs.Inner.Receiving.{end_of_next};

use crate::entrance::Entrance;
use crate::stream_end::StreamEnd;
use route_wire::{Feed, Next, Truncated};
use std::marker::Model;

/// The number of counts: the greatest number of a record's refusal is 14, a counter of 0.
pub const KINDS: usize = 15;

/// Takes a connection's octets, in pieces of any size. It holds the octets of at most one record,
/// and allocates no memory.
#[derive(Drop)]
pub struct Receiver {
    feed: Feed,
    counts: [u64; KINDS],
}

impl Model for Receiver {
    ghost use Rattle.std.specs.Prelude.{◌≡◌, false};
    ghost use Rattle.route_wire.specs.Feed.{shown};
    ghost use Rattle.route_wire.specs.Record.{is_length};
    ghost use Rattle.ev_exchange.specs.Receiving.{Received};

    ghost Value = { Received };

    ghost view = { λ r. record { feed = r.feed; counts = r.counts } };

    ghost invariant = { λ r. (r.feed.newest ≡ 3) × (is_length (shown r.feed) ≡ false) };
}

/// Returns the end that the stream shows, by the feed's next result.
fn end_of_next(next: &Next, feed: &Feed) -> StreamEnd
    requires { next.now ≡ More → is_rest (shown feed.now) ≡ true }
    ensures { result ≡ end_of_next next.now feed.now.rest }
{
    match next {
        Next::Fault(fault) => StreamEnd::Faulty(*fault),
        Next::More => match feed.end() {
            Ok(()) => StreamEnd::Whole,
            Err(Truncated { octets }) => StreamEnd::Cut(octets),
        },
        Next::Record(_) => StreamEnd::Whole,
        Next::Refused(_) => StreamEnd::Whole,
    }
}

impl Receiver {
    /// Returns a receiver that has received nothing.
    pub fn new() -> Self
        ensures { (start : Given) → HasReceived result start start [] }
    {
        Receiver {
            feed: Feed::new(),
            counts: [0; KINDS],
        }
    }

    /// Counts a refused record. Returns `true` if it is the first of its kind.
    fn count(&mut self, refusal: u8) -> bool
        requires { refusal < KINDS }
        ensures first { (earlier : List (Result Fields ℕ)) → AreCounts self.old.counts earlier
            → result ≡ (times refusal earlier == 0) }
        ensures counts { (earlier : List (Result Fields ℕ)) → AreCounts self.old.counts earlier
            → AreCounts self.new.counts (earlier ++ Err refusal ∷ []) }
        ensures feed { self.new.feed ≡ self.old.feed }
    {
        let kind = usize::from(refusal);
        let before = self.counts[kind];
        self.counts[kind] = before.saturating_add(1);
        before == 0
    }

    /// Counts a refused record, and reports it if it is the first of its kind.
    fn refuse<E: Entrance>(&mut self, refusal: u8, into: &mut E)
        requires { refusal < KINDS }
        ensures told { (earlier : List (Result Fields ℕ)) → AreCounts self.old.counts earlier
            → E.given into.new ≡ behind (E.given into.old) (news_of earlier (Err refusal)) }
        ensures counts { (earlier : List (Result Fields ℕ)) → AreCounts self.old.counts earlier
            → AreCounts self.new.counts (earlier ++ Err refusal ∷ []) }
        ensures feed { self.new.feed ≡ self.old.feed }
    {
        if self.count(refusal) {
            into.tell(refusal);
        }
    }

    /// Takes octets at the front of a piece, up to a record's end, and returns their number.
    fn step<E: Entrance>(&mut self, piece: &[u8], into: &mut E) -> usize
        requires { 0 < length piece.now }
        ensures took { (start : Given) (stream : List ℕ)
            → HasReceived self.old start (E.given into.old) stream
            → HasReceived self.new start (E.given into.new) (stream ++ take result piece.now) }
        ensures some { 0 < result }
        ensures fits { result ≤ length piece.now }
    {
        // by reference: an update is large, and would be copied at each step on its way
        let taken = self.feed.take(piece);
        match &taken.1 {
            Next::More => {}
            Next::Record(update) => into.enter(update),
            Next::Refused(refusal) => self.refuse(*refusal, into),
            // the feed keeps the fault, and `end` queries the feed
            Next::Fault(_) => {}
        }
        taken.0
    }

    /// Takes the octets of a piece. Each update whose record is whole now is entered, once and in
    /// order. A refused record is counted, and the first of each kind is reported. After a fault of
    /// the stream nothing is read.
    pub fn take<E: Entrance>(&mut self, piece: &[u8], into: &mut E)
        ensures { (start : Given) (stream : List ℕ)
            → HasReceived self.old start (E.given into.old) stream
            → HasReceived self.new start (E.given into.new) (stream ++ piece.now) }
    {
        let mut rest = piece;
        while !rest.is_empty() {
            let n = self.step(rest, into);
            let (_, behind) = rest.split_at(n);
            rest = behind;
        }
    }

    /// Returns the number of records with this refusal, up to 2^64 - 1, or 0 for a number that is
    /// no refusal of a record.
    pub fn refused(&self, refusal: u8) -> u64
        ensures value { refusal < KINDS → result ≡ slice_index self.now.counts refusal }
        ensures none { KINDS ≤ refusal → result ≡ 0 }
    {
        match self.counts.get(usize::from(refusal)) {
            Some(count) => *count,
            None => 0,
        }
    }

    /// Returns the end that the stream shows now: whether it may end here, and its fault.
    pub fn end(&mut self) -> StreamEnd
        ensures delivers { (start given : Given) (stream : List ℕ)
            → HasReceived self.old start given stream
            → Delivers stream start given self.old.counts result }
        ensures same { self.new ≡ self.old }
    {
        let next = self.feed.next();
        end_of_next(&next, &self.feed)
    }
}
