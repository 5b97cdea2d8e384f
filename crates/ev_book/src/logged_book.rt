//! The book of an edge with the edge's seat in the history.
ghost use Rattle.std.specs.Prelude.{◌≡◌, ◌<◌, ◌≤◌, option_copied, vec_len};
ghost use Rattle.ev_edge.specs.declared.event.Event.TheVariants as events;
ghost use Rattle.ev_book.specs.Entering.{CallsBook, answered};
ghost use Rattle.ev_book.specs.Book.{count_sum};
ghost use Rattle.ev_book.specs.Closing.{counts_of, sum_of};
ghost use Rattle.ev_book.specs.declared.log_entry.LogEntry.TheVariants.{Does};
ghost use Rattle.ev_book.specs.declared.log_entry.Deed.TheVariants.{Announces};
ghost use Rattle.ev_book.specs.Log.{world, Follows, IsHistory};
ghost use Rattle.ev_book.specs.Rule.{told};
ghost use Rattle.ev_book.specs.Booking.{IsCovered, Opens, announced_by};
ghost use Rattle.ev_book.specs.Inner.Booking.{GoesOn, has_stepped};
ghost use Rattle.ev_book.specs.Standing.{Stands};

use crate::front::{Front, Naming};
use crate::log_entry::Deed;
use crate::rule::Adding;
use crate::seat::Seat;
use crate::told::Told;
use crate::{Book, BookRefusal, Pass, Totals};
use ev_edge::{Edge, Event, Reply};
use route_wire::Update;
use std::marker::{Brand, Model};
use std::sync::Wait;
use std::sync::ledger::Ledger;

/// The ledger of an edge's book, and the edge's place.
pub trait Placed: Ledger {
    ghost use Rattle.std.specs.Prelude.{ℕ};

    ghost place: { ℕ };
}

impl Placed for Brand {
    ghost place = { 0 };
}

/// The book of an edge with the edge's seat in the history. Contracts see it as the book. The
/// edge has gone on from its last entry by events in which other edges have no part.
#[derive(Drop)]
pub struct LoggedBook<L: Placed, J: Naming> {
    book: Book<L>,
    seat: Seat<J>,
}

impl<L: Placed, J: Naming> Model for LoggedBook<L, J> {
    ghost use Rattle.std.specs.Prelude.{◌≡◌};
    ghost use Rattle.std.specs.Coded.{codes};
    ghost use Rattle.std.specs.FinMap.{code};
    ghost use Rattle.ev_book.specs.Book.{BookState};
    ghost use Rattle.ev_book.specs.Standing.{Stands};

    ghost Value = { BookState };

    ghost coded = { Prim.hlevel (codes, code) };

    ghost view = { λ b. b.book };

    ghost invariant = { λ b. (b.seat.place ≡ L.place)
        × Stands b.seat.place b.seat.log b.book.edge };
}

/// Adds an entry of an edge to the history, after all that was seen here and in `with`.
fn add<J: Naming, R: Wait>(rt: &R, seat: &mut Seat<J>, with: &Front<J>, deed: Deed, edge: &Edge)
    requires { Follows (told (world seat.old.log) (world with.now))
        (Does seat.old.place deed edge.now) }
    ensures place { seat.new.place ≡ seat.old.place }
    ensures stands { Stands seat.new.place seat.new.log edge.now }
{
    seat.make_room(rt);
    let place = seat.place();
    let adding = Adding { place, deed, edge };
    seat.add(rt, with, &adding);
}

/// Returns `true` if a call of a book was a step of its edge.
fn has_stepped(answer: &Result<(), BookRefusal>) -> bool
    ensures { result ≡ has_stepped answer.now }
{
    match answer {
        Ok(()) => true,
        Err(BookRefusal::Edge(_)) => true,
        Err(BookRefusal::NoRoom) => false,
        Err(BookRefusal::PassStrange) => false,
        Err(BookRefusal::PassSpent) => false,
    }
}

/// Adds to the history that an edge took an update, if the call of its book was a step of the edge.
fn note<J: Naming, R: Wait>(
    rt: &R,
    seat: &mut Seat<J>,
    told: &Told<J>,
    answer: &Result<(), BookRefusal>,
    edge: &Edge,
)
    requires { GoesOn seat.old.place seat.old.log (events.Take told.now) answer.now edge.now }
    ensures place { seat.new.place ≡ seat.old.place }
    ensures stands { Stands seat.new.place seat.new.log edge.now }
{
    if has_stepped(answer) {
        add(rt, seat, told.front(), Deed::Takes(*told.update()), edge);
    }
}

/// Adds an announcement of an edge to the history, and returns it.
fn tell<J: Naming, R: Wait>(rt: &R, seat: &mut Seat<J>, update: Update, edge: &Edge) -> Told<J>
    requires { Follows (told (world seat.old.log) (world seat.old.log))
        (Does seat.old.place (Announces update) edge.now) }
    ensures told { result ≡ update }
    ensures place { seat.new.place ≡ seat.old.place }
    ensures stands { Stands seat.new.place seat.new.log edge.now }
{
    seat.make_room(rt);
    let front = seat.front().again();
    let adding = Adding {
        place: seat.place(),
        deed: Deed::Announces(update),
        edge,
    };
    seat.add(rt, &front, &adding);
    Told::new(update, seat.front().again())
}

/// Returns the update that an answer announces.
fn announced_by(answer: &Result<(), BookRefusal>, reply: &Reply) -> Option<Update>
    ensures { result ≡ announced_by (answered answer.now reply.now) }
{
    match answer {
        Ok(()) => reply.announced,
        Err(_) => None,
    }
}

impl<L: Placed, J: Naming> LoggedBook<L, J> {
    /// Adds to the history that an edge was opened, and returns its book with its seat.
    #[tactic(auto, using(crate::proofs::Booking::opens_follows))]
    pub fn new<R: Wait>(rt: &R, book: Book<L>, seat: Seat<J>) -> Self
        requires place { seat.place ≡ L.place }
        requires opens { Opens seat.place seat.log book.edge }
        ensures { result ≡ book }
    {
        book.always_replays();
        let mut seat = seat;
        let front = seat.front().again();
        add(rt, &mut seat, &front, Deed::Opens, book.edge());
        LoggedBook { book, seat }
    }

    /// Returns the edge.
    pub fn edge(&self) -> &Edge
        ensures { result.now ≡ self.now.edge }
    {
        self.book.edge()
    }

    /// Enters an event that other edges have no part in, or the update `told`, as
    /// `Book::enter_into`. If the edge took or refused that update, adds an entry to the history.
    ///
    /// # Errors
    ///
    /// As those of `Book::enter_into`.
    pub fn enter<R: Wait>(
        &mut self,
        rt: &R,
        pass: &mut Pass<L>,
        event: &Event<'_>,
        told: Option<&Told<J>>,
        reply: &mut Reply,
    ) -> Result<(), BookRefusal>
        requires { IsCovered event.now (option_copied told) }
        ensures { CallsBook self.old pass.old event.now (answered result reply.new) self.new
            pass.new }
    {
        let answer = self.book.enter_into(pass, event, reply);
        match told {
            Some(told) => note(rt, &mut self.seat, told, &answer, self.book.edge()),
            None => {}
        }
        answer
    }

    /// Requests the edge's next announcement, as `Book::enter_into`. Adds it to the history if
    /// there is one, and returns it.
    pub fn announce<R: Wait>(
        &mut self,
        rt: &R,
        pass: &mut Pass<L>,
        reply: &mut Reply,
    ) -> (Result<(), BookRefusal>, Option<Told<J>>)
        ensures calls { CallsBook self.old pass.old events.Announce
            (answered result.0 reply.new) self.new pass.new }
        ensures told { result.1 ≡ announced_by (answered result.0 reply.new) }
    {
        let answer = self.book.enter_into(pass, &Event::Announce, reply);
        let told = match announced_by(&answer, reply) {
            Some(update) => Some(tell(rt, &mut self.seat, update, self.book.edge())),
            None => None,
        };
        (answer, told)
    }

    /// Ends the book, as `Book::close`. Returns the edge's seat, too.
    pub fn close(self, passes: Vec<Pass<L>>) -> (Edge, Totals, Seat<J>)
        requires all { vec_len passes ≡ L.parts }
        requires some { (0 < vec_len passes) × (vec_len passes ≤ 256) }
        ensures edge { result.0 ≡ self.edge }
        ensures counts { result.1 ≡ counts_of passes.items }
        ensures sum { sum_of result.1 ≡ count_sum self.kept }
        ensures place { result.2.place ≡ L.place }
        ensures stands { Stands result.2.place result.2.log result.0 }
        ensures legal { IsHistory result.2.log }
    {
        let LoggedBook { book, seat } = self;
        let _ = seat.front();
        let (edge, totals) = book.close(passes);
        (edge, totals, seat)
    }
}
