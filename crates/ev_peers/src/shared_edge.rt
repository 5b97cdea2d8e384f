//! An edge as its workers share it: its book under a lock, and the gate that is called at each call
//! of the book.
#![tactic(auto, using(crate::proofs::PassingOn::says_none, crate::proofs::PassingOn::says_twice, ev_links::proofs::Behind::behind_none))]

ghost use Rattle.std.specs.Prelude.{◌≡◌};
ghost use Rattle.ev_book.specs.Entering.{answered, CallsBook};
ghost use Rattle.ev_mailboxes.specs.Alarm.{alert_of};
ghost use Rattle.ev_edge.specs.declared.event.Event.TheVariants.{Announce};
ghost use Rattle.ev_book.specs.Booking.{IsCovered};
ghost use Rattle.ev_peers.specs.Passing.{Leaves, Asked, has_pending};
ghost use Rattle.ev_peers.specs.Inner.Passing.{is_no_memory};

use crate::gate::{Gate, Point};
use ether_wire::Mac;
use ev_book::{BookRefusal, LoggedBook, Naming, Pass, Placed, Told};
use ev_edge::{Event, Reply};
use ev_mailboxes::alert_of;
use ev_mobility::Alert;
use std::sync::atomic::{AtomicBool, Ordering};
use std::sync::{Mutex, Wait};

/// Why a worker ended.
#[derive(Clone, Copy, PartialEq, Eq, Debug)]
pub enum Ended {
    /// Its link or channel came to its end.
    End,
    /// Its link came to its end, and a call of it had failed.
    Device,
    /// It was refused its thread.
    NoMemory,
}

/// An edge as its workers share it.
#[derive(Drop)]
pub struct SharedEdge<'x, L: Placed, J: Naming, G, R> {
    /// Waits for the lock.
    pub rt: &'x R,
    /// The edge's book, which keeps the history of the edges.
    pub book: &'x Mutex<LoggedBook<L, J>>,
    /// Called at three points of each call of the book.
    pub gate: &'x G,
    /// The edge's number for the gate.
    pub edge: usize,
    /// The address from which the edge sends BPDUs.
    pub bridge: Mac,
    /// Set once a call of the book was refused memory.
    pub out_of_memory: &'x AtomicBool,
}

impl<L: Placed, J: Naming, G: Gate, R: Wait> SharedEdge<'_, L, J, G, R> {
    /// Calls the book once, with all three points: with an event that other edges have no part in,
    /// or with the update `told`. Only the call itself holds the lock. Returns the book's answer,
    /// and `true` exactly if an announcement is pending in the book after the call.
    pub(crate) fn enter(
        &self,
        pass: &mut Pass<L>,
        event: &Event<'_>,
        told: &Option<Told<J>>,
        reply: &mut Reply,
    ) -> (Result<(), BookRefusal>, bool)
        requires { IsCovered event.now told.now }
        ensures { Leaves pass.old event.now (answered result.0 reply.new) result.1 pass.new }
    {
        self.gate.at(self.edge, Point::Before);
        let (answer, is_pending) = {
            let mut book = self.book.lock(self.rt);
            self.gate.at(self.edge, Point::Inside);
            call(self.rt, &mut *book, pass, event, told, reply)
        };
        self.gate.at(self.edge, Point::After);
        self.note(&answer, reply);
        (answer, is_pending)
    }

    /// Returns the edge's next announcement, or `None` if there is none or the call is refused.
    pub(crate) fn ask(&self, pass: &mut Pass<L>, reply: &mut Reply) -> Option<Told<J>>
        ensures { Asked pass.old result pass.new }
    {
        self.gate.at(self.edge, Point::Before);
        let (answer, told) = {
            let mut book = self.book.lock(self.rt);
            self.gate.at(self.edge, Point::Inside);
            request(self.rt, &mut *book, pass, reply)
        };
        self.gate.at(self.edge, Point::After);
        self.note(&answer, reply);
        told
    }

    /// Notes if memory was refused for a call of the book.
    fn note(&self, answer: &Result<(), BookRefusal>, reply: &Reply) {
        if lacks_memory(answer, reply) {
            self.out_of_memory.store(true, Ordering::SeqCst);
        }
    }
}

/// Returns `true` if the alert is that memory was refused.
fn is_no_memory(alert: Option<Alert>) -> bool
    ensures { result ≡ is_no_memory alert }
{
    match alert {
        Some(Alert::NoMemory) => true,
        _ => false,
    }
}

/// Returns `true` if memory was refused for the event, or for a station, which was then not
/// learnt.
fn lacks_memory(answer: &Result<(), BookRefusal>, reply: &Reply) -> bool
    ensures { result ≡ is_no_memory (alert_of (answered answer.now reply.now)) }
{
    is_no_memory(alert_of(answer, reply))
}

/// Calls a book once. Returns its answer, and `true` exactly if an announcement is pending in it
/// after the call.
fn call<L: Placed, J: Naming, R: Wait>(
    rt: &R,
    book: &mut LoggedBook<L, J>,
    pass: &mut Pass<L>,
    event: &Event<'_>,
    told: &Option<Told<J>>,
    reply: &mut Reply,
) -> (Result<(), BookRefusal>, bool)
    requires { IsCovered event.now told.now }
    ensures calls { CallsBook book.old pass.old event.now (answered result.0 reply.new) book.new
        pass.new }
    ensures pending { result.1 ≡ has_pending book.new }
    ensures leaves { Leaves pass.old event.now (answered result.0 reply.new) result.1 pass.new }
{
    let answer = book.enter(rt, pass, event, told.as_ref(), reply);
    (answer, book.edge().has_pending())
}

/// Requests the next announcement from a book. Returns the book's answer, and the announcement.
fn request<L: Placed, J: Naming, R: Wait>(
    rt: &R,
    book: &mut LoggedBook<L, J>,
    pass: &mut Pass<L>,
    reply: &mut Reply,
) -> (Result<(), BookRefusal>, Option<Told<J>>)
    ensures calls { CallsBook book.old pass.old Announce (answered result.0 reply.new) book.new
        pass.new }
    ensures asked { Asked pass.old result.1 pass.new }
{
    book.announce(rt, pass, reply)
}
