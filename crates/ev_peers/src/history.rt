//! The history of the edges of a run, at its beginning and at its end.
ghost use Rattle.std.specs.Prelude.{◌≡◌, ◌∷◌, [], IfSome, length};
ghost use mathlib.Core.List.{IsPrefix};
ghost use Rattle.ev_book.specs.declared.log_entry.LogEntry.TheVariants.{Begins};
ghost use Rattle.ev_book.specs.Log.{IsHistory, count};
ghost use Rattle.ev_peers.specs.History.{configs_of};
ghost use Rattle.ev_peers.specs.Inner.History.{AreSeen, AreSettled};

use crate::run::Setup;
use ev_book::{Front, LogEntry, Naming, NewHistory, Seat};
use logbook::Opening;
use std::sync::Wait;

/// The edges of a run, and whether updates of other processes come in.
#[derive(Drop)]
struct Beginning<'a, I: Drop, O: Drop> {
    setups: &'a [Setup<I, O>],
    outside: bool,
}

/// The history of a run begins with the configurations of its edges.
struct Begin;

impl<'a, I: Drop, O: Drop> Opening<Beginning<'a, I, O>, LogEntry> for Begin {
    ghost use Rattle.std.specs.Prelude.{◌∷◌, []};
    ghost use Rattle.ev_book.specs.declared.log_entry.LogEntry.TheVariants.{Begins};
    ghost use Rattle.ev_peers.specs.History.{configs_of};

    ghost log = { λ count b. Begins b.outside (configs_of b.setups.now) ∷ [] };
}

/// Begins the history of these edges. Updates of other processes come in if `outside`.
#[tactic(auto, using(crate::proofs::Histories::begun))]
pub fn new_history<I: Drop, O: Drop>(setups: &[Setup<I, O>], outside: bool) -> NewHistory
    ensures log { result.seen.log ≡ Begins outside (configs_of setups.now) ∷ [] }
    ensures outside { result.outside ≡ outside }
{
    let beginning = Beginning { setups, outside };
    NewHistory::new::<Beginning<'_, I, O>, Begin>(&beginning, setups.len(), outside)
}

/// Returns a history with what this seat has seen, if there is a seat.
#[tactic(auto, using(ev_book::proofs::Prefixes::prefix_self))]
fn with_seen<J: Naming>(all: Front<J>, seat: &Option<Seat<J>>) -> Front<J>
    ensures front { IsPrefix all result }
    ensures seat { IfSome seat.now (λ s. IsPrefix s.log result) }
{
    match seat {
        Some(seat) => all.both(seat.front()),
        None => all,
    }
}

/// Returns the history that all these seats have seen, and more.
pub(crate) fn all_seen<J: Naming>(front: Front<J>, seats: &[Option<Seat<J>>]) -> Front<J>
    ensures front { IsPrefix front result }
    ensures seats { AreSeen (length seats.now) result seats.now }
    ensures legal { IsHistory result }
{
    let mut all = front;
    for place in 0..seats.len() {
        all = with_seen(all, &seats[place]);
    }
    all.again()
}

/// Waits until the edge of this seat has no entries but those in this history, if there is a seat.
fn settle_one<J: Naming, R: Wait>(rt: &R, front: &Front<J>, seat: &Option<Seat<J>>)
    requires { IfSome seat.now (λ s. IsPrefix s.log front.now) }
    ensures { IfSome seat.now (λ s. count s.place front.now ≡ count s.place s.log) }
{
    match seat {
        Some(seat) => seat.settle(rt, front),
        None => {}
    }
}

/// Waits until each of these edges has no entries but those in this history.
pub(crate) fn settle_all<J: Naming, R: Wait>(rt: &R, front: &Front<J>, seats: &[Option<Seat<J>>])
    requires { AreSeen (length seats.now) front.now seats.now }
    ensures { AreSettled (length seats.now) front.now seats.now }
{
    for place in 0..seats.len() {
        settle_one(rt, front, &seats[place]);
    }
}
