//! Records of a stream that comes in pieces.
ghost use Rattle.std.specs.Prelude.{◌≡◌, ◌+◌, ◌≤◌, ◌<◌, ◌++◌, ℕ, List, [], true, false, length, take, Result};
ghost use Rattle.arrayvec.specs.ArrayVec.{array_vec_len};
ghost use Rattle.route_wire.specs.Fields.{Fields};
ghost use Rattle.route_wire.specs.Stream.{whole_up_to};
ghost use Rattle.route_wire.specs.Record.{unless_refused};
ghost use Rattle.route_wire.specs.Feed.{is_rest, answer_of, next_with};

use crate::record::read_into;
use crate::stream::{
    Answer, HEAD, LENGTH_PLACE, LONGEST, NEWEST, Next, SECOND_VERSION, Truncated, Whole,
    whole_up_to,
};
use crate::update::Update;
use arrayvec::ArrayVec;
use byteorder::{BigEndian, ByteOrder};
use std::marker::Model;

/// A reader of records from a stream that comes in pieces, however it is cut. It holds the octets
/// of one record at most, and takes no memory.
#[derive(Drop)]
pub struct Feed {
    newest: u8,
    held: ArrayVec<u8, LONGEST>,
}

impl Model for Feed {
    ghost use Rattle.std.specs.Prelude.{◌≤◌};
    ghost use Rattle.route_wire.specs.Feed.{Held, IsHeld};

    ghost Value = { Held };

    ghost view = { λ f. record { newest = f.newest; rest = f.held.items } };

    ghost invariant = { λ f. (f.newest ≤ 3) × IsHeld f.newest f.held.items };
}

/// Returns `true` if the octets are a proper beginning of a record.
fn is_unfinished(newest: u8, octets: &[u8]) -> bool
    ensures { result ≡ is_rest (whole_up_to newest octets.now) }
{
    matches!(whole_up_to(newest, octets), Whole::Rest)
}

/// Moves octets from the piece until six are held or they show a fault. Returns the number of
/// octets moved.
fn take_head(newest: u8, held: &mut ArrayVec<u8, LONGEST>, piece: &[u8]) -> usize
    requires { is_rest (whole_up_to newest held.old.items) ≡ true }
    ensures fits { result ≤ length piece.now }
    ensures taken { held.new.items ≡ held.old.items ++ take result piece.now }
    ensures unfinished { (k : ℕ) → k < result
        → is_rest (whole_up_to newest (held.old.items ++ take k piece.now)) ≡ true }
    ensures ended { length held.new.items < 6 → is_rest (whole_up_to newest held.new.items) ≡ true
        → result ≡ length piece.now }
{
    for i in 0..piece.len() {
        if HEAD <= held.len() || !is_unfinished(newest, held.as_slice()) {
            return i;
        }
        held.push(piece[i]);
    }
    piece.len()
}

/// Moves octets of a record with a known length from the piece. Returns the number of octets moved.
fn take_body(newest: u8, held: &mut ArrayVec<u8, LONGEST>, piece: &[u8]) -> usize
    requires six { 6 ≤ length held.old.items }
    requires rest { is_rest (whole_up_to newest held.old.items) ≡ true }
    ensures fits { result ≤ length piece.now }
    ensures taken { held.new.items ≡ held.old.items ++ take result piece.now }
    ensures unfinished { (k : ℕ) → k < result
        → is_rest (whole_up_to newest (held.old.items ++ take k piece.now)) ≡ true }
    ensures ended { is_rest (whole_up_to newest held.new.items) ≡ true → result ≡ length piece.now }
{
    let (_, length) = held.as_slice().split_at(LENGTH_PLACE);
    let len = HEAD + BigEndian::read_u16(length) as usize;
    let count = piece.len().min(len - held.len());
    match held.try_extend_from_slice(&piece[..count]) {
        Ok(()) => count,
        Err(_) => unreachable!(),
    }
}

/// Moves octets from the piece until a record or a fault is whole. Returns the number of octets
/// moved.
fn take_octets(newest: u8, held: &mut ArrayVec<u8, LONGEST>, piece: &[u8]) -> usize
    requires { is_rest (whole_up_to newest held.old.items) ≡ true }
    ensures fits { result ≤ length piece.now }
    ensures taken { held.new.items ≡ held.old.items ++ take result piece.now }
    ensures unfinished { (k : ℕ) → k < result
        → is_rest (whole_up_to newest (held.old.items ++ take k piece.now)) ≡ true }
    ensures ended { is_rest (whole_up_to newest held.new.items) ≡ true → result ≡ length piece.now }
{
    let head = take_head(newest, held, piece);
    if held.len() < HEAD || !is_unfinished(newest, held.as_slice()) {
        return head;
    }
    let (_, rest) = piece.split_at(head);
    head + take_body(newest, held, rest)
}

/// Returns the answer to a whole record, by its refusal.
fn answer(refusal: Option<u8>) -> Answer
    ensures { (u : Fields) → next_with result u ≡ answer_of (unless_refused refusal u) }
{
    match refusal {
        None => Answer::Record,
        Some(refusal) => Answer::Refused(refusal),
    }
}

/// Returns an answer with the update of its record.
fn next_with(answer: Answer, update: Update) -> Next
    ensures { result ≡ next_with answer update }
{
    match answer {
        Answer::More => Next::More,
        Answer::Record => Next::Record(update),
        Answer::Refused(refusal) => Next::Refused(refusal),
        Answer::Fault(fault) => Next::Fault(fault),
    }
}

impl Feed {
    ghost use Rattle.route_wire.specs.declared.stream.Next.TheVariants.{More};
    ghost use Rattle.route_wire.specs.declared.stream.Answer.TheVariants.{More as Unfed};
    ghost use Rattle.route_wire.specs.Feed.{shown, Feeds, TakesNext, next_of, next_with, after_next, end_of, added, HasRead};

    /// Returns a feed of records of all versions.
    pub fn new() -> Self
        ensures value { result ≡ record { newest = 3; rest = [] } }
        ensures read { HasRead result [] [] }
    {
        Feed {
            newest: NEWEST,
            held: ArrayVec::new(),
        }
    }

    /// Returns a feed of records of versions 1 and 2 only: version 3 is fault 2.
    pub fn old() -> Self
        ensures value { result ≡ record { newest = 2; rest = [] } }
        ensures read { HasRead result [] [] }
    {
        Feed {
            newest: SECOND_VERSION,
            held: ArrayVec::new(),
        }
    }

    /// Takes octets from the piece until a record or a fault is whole or the piece ends, and
    /// returns their number. After a fault it takes all. While a whole record is held it takes
    /// none.
    pub fn feed(&mut self, piece: &[u8]) -> usize
        ensures fits { result ≤ length piece.now }
        ensures feeds { Feeds self.old self.new piece.now result }
        ensures read { (stream : List ℕ) (answers : List (Result Fields ℕ))
            → HasRead self.old stream answers
            → HasRead self.new (stream ++ take result piece.now) answers }
    {
        match whole_up_to(self.newest, self.held.as_slice()) {
            Whole::Fault(_) => piece.len(),
            Whole::Length(_) => 0,
            Whole::Rest => take_octets(self.newest, &mut self.held, piece),
        }
    }

    /// Writes the update of the record that is held whole, or returns its refusal, and discards the
    /// record; or returns the fault; or `More` if there is neither.
    fn next_into(&mut self, update: &mut Update) -> Answer
        ensures value { next_with result update.new ≡ next_of self.old }
        ensures after { self.new ≡ after_next self.old }
        ensures more { result ≡ Unfed → is_rest (shown self.new) ≡ true }
        ensures read { (stream : List ℕ) (answers : List (Result Fields ℕ))
            → HasRead self.old stream answers
            → HasRead self.new stream (answers ++ added (next_with result update.new)) }
    {
        match whole_up_to(self.newest, self.held.as_slice()) {
            Whole::Rest => Answer::More,
            Whole::Fault(fault) => Answer::Fault(fault),
            Whole::Length(_) => {
                let refusal = read_into(self.held.as_slice(), update);
                self.held.clear();
                answer(refusal)
            }
        }
    }

    /// Returns the answer to the record that is held whole, and discards the record; or the fault;
    /// or `More` if there is neither.
    pub fn next(&mut self) -> Next
        ensures value { result ≡ next_of self.old }
        ensures after { self.new ≡ after_next self.old }
        ensures more { result ≡ More → is_rest (shown self.new) ≡ true }
        ensures read { (stream : List ℕ) (answers : List (Result Fields ℕ))
            → HasRead self.old stream answers
            → HasRead self.new stream (answers ++ added result) }
    {
        let mut update = Update::placeholder();
        let answer = self.next_into(&mut update);
        next_with(answer, update)
    }

    /// Takes octets from the piece as `feed` does, and returns their number and the answer that
    /// `next` returns. It reads a record in place if the whole record is in the piece, and copies
    /// only a record that is cut.
    pub fn take(&mut self, piece: &[u8]) -> (usize, Next)
        ensures fits { result.0 ≤ length piece.now }
        ensures takes { TakesNext self.old self.new piece.now result.0 result.1 }
        ensures more { result.1 ≡ More → is_rest (shown self.new) ≡ true }
        ensures read { (stream : List ℕ) (answers : List (Result Fields ℕ))
            → HasRead self.old stream answers
            → HasRead self.new (stream ++ take result.0 piece.now) (answers ++ added result.1) }
    {
        let mut update = Update::placeholder();
        let (n, answer) = self.take_into(piece, &mut update);
        (n, next_with(answer, update))
    }

    /// Takes octets from the piece as `take` does, and returns their number and the answer. The
    /// update of a whole record is written to the caller's place, so that nothing copies it.
    #[inline(always)]
    pub fn take_into(&mut self, piece: &[u8], update: &mut Update) -> (usize, Answer)
        ensures fits { result.0 ≤ length piece.now }
        ensures takes { TakesNext self.old self.new piece.now result.0
            (next_with result.1 update.new) }
        ensures more { result.1 ≡ Unfed → is_rest (shown self.new) ≡ true }
        ensures read { (stream : List ℕ) (answers : List (Result Fields ℕ))
            → HasRead self.old stream answers
            → HasRead self.new (stream ++ take result.0 piece.now)
            (answers ++ added (next_with result.1 update.new)) }
    {
        if self.held.as_slice().is_empty() {
            if let Whole::Length(n) = whole_up_to(self.newest, piece) {
                let (record, _) = piece.split_at(n);
                return (n, answer(read_into(record, update)));
            }
        }
        self.take_cut(piece, update)
    }

    /// Does what `take_into` does with a record that isn't whole in the piece.
    #[inline(never)]
    fn take_cut(&mut self, piece: &[u8], update: &mut Update) -> (usize, Answer)
        ensures fits { result.0 ≤ length piece.now }
        ensures takes { TakesNext self.old self.new piece.now result.0
            (next_with result.1 update.new) }
        ensures more { result.1 ≡ Unfed → is_rest (shown self.new) ≡ true }
        ensures read { (stream : List ℕ) (answers : List (Result Fields ℕ))
            → HasRead self.old stream answers
            → HasRead self.new (stream ++ take result.0 piece.now)
            (answers ++ added (next_with result.1 update.new)) }
    {
        let n = self.feed(piece);
        (n, self.next_into(update))
    }

    /// Returns `Ok` if the stream may end here, or the number of octets of an unfinished record.
    /// The condition is that `next` would return `More`.
    pub fn end(&self) -> Result<(), Truncated>
        requires { is_rest (shown self.now) ≡ true }
        ensures { result ≡ end_of self.now }
    {
        match self.held.len() {
            0 => Ok(()),
            octets => Err(Truncated { octets }),
        }
    }
}
