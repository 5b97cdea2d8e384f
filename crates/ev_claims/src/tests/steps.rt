//! The events of an edge's local routes, and the queries: tests are lists of these.
use super::{Edge, Lesson, Name, Said, knows, knows_not, network, says, station};
use crate::{Imported, LocalRoutes, OwnError};
use ether_wire::Addr;
use mac_arena::Station;
use route_join::{TakeError, Taken};
use route_wire::{Advert, Content, Key, Update};
use std::alloc::Global;

/// A change with its answer, or a question with its answer.
#[derive(Clone, Copy)]
pub(super) enum Step {
    /// It is pinned on the port.
    Pin(Name, u8),
    /// Those that weren't heard after this second go.
    Age(u64),
    /// The stations at these ports are removed.
    Flush(u64),
    /// Another edge's update gives this.
    Import(Said, Result<Imported, TakeError>),
    /// An update under the edge's own name gives this.
    ImportOwn(Said, Result<Taken, OwnError>),
    /// The next update to be announced is the flood list of the network 500N with this number.
    AnnounceFlood(u8, u64),
    /// It is this one.
    Announce(Said),
    /// There is none.
    AnnounceNothing,
    /// It is at this port, sent its last frame then, and is pinned or not.
    Knows(Name, u8, u64, bool),
    /// It isn't learnt.
    KnowsNot(Name),
    /// The table says this under the edge's name.
    Says(Said),
    /// The table has no update of it under the edge's name.
    SaysNothing(Name),
    /// The own update with this number is this one.
    Numbered(Said),
    /// There is no own update with this number.
    NotNumbered(u64),
    /// The last number that was given.
    Counter(u64),
    /// How many stations are known.
    Entries(usize),
    /// The ports of the network 500N.
    Members(u8, u64),
}

impl Step {
    /// Whether it goes, or is, as it says.
    fn holds(self, routes: &mut LocalRoutes) -> bool {
        match self {
            Step::Pin(name, port) => pins(routes, station(name), port),
            Step::Age(limit) => {
                routes.age(limit);
                true
            }
            Step::Flush(ports) => {
                routes.flush(ports);
                true
            }
            Step::Import(said, answer) => import(routes, said) == Some(answer),
            Step::ImportOwn(said, answer) => import_own(routes, said) == Some(answer),
            Step::AnnounceFlood(n, counter) => announces_flood(routes, n, counter),
            Step::Announce(said) => is_originated(routes.announce(), said),
            Step::AnnounceNothing => routes.announce().is_none(),
            question => question.is_so(routes),
        }
    }

    /// Whether a question has the answer that it says.
    fn is_so(self, routes: &LocalRoutes) -> bool {
        match self {
            Step::Knows(name, port, last, pinned) => knows(routes, name, port, last, pinned),
            Step::KnowsNot(name) => knows_not(routes, name),
            Step::Says(said) => is_originated(says(routes, said.name), said),
            Step::SaysNothing(name) => says(routes, name).is_none(),
            Step::Numbered(said) => is_originated(routes.own_at(said.counter), said),
            Step::NotNumbered(counter) => routes.own_at(counter).is_none(),
            Step::Counter(counter) => routes.counter() == counter,
            Step::Entries(count) => routes.entries() == count,
            Step::Members(n, ports) => routes.members(network(n)) == ports,
            _ => false,
        }
    }
}

/// Whether an edge that was taught these lessons goes through these steps. It serves the network
/// 5002 on port 2 or not at all.
pub(super) fn goes(
    alloc: Global,
    incarnation: u32,
    both: bool,
    lessons: &[Lesson],
    steps: &[Step],
) -> bool {
    match taught(alloc, incarnation, both, lessons) {
        Some(edge) => follows(edge.routes, steps),
        None => false,
    }
}

/// An edge that was taught these lessons.
fn taught(alloc: Global, incarnation: u32, both: bool, lessons: &[Lesson]) -> Option<Edge> {
    let mut edge = Edge::made(alloc, incarnation, both)?;
    for lesson in lessons {
        if !edge.teach(lesson) {
            return None;
        }
    }
    Some(edge)
}

fn follows(mut routes: LocalRoutes, steps: &[Step]) -> bool {
    for step in steps {
        if !step.holds(&mut routes) {
            return false;
        }
    }
    true
}

fn is_originated(found: Option<Update>, said: Said) -> bool {
    found.is_some() && found == said.update()
}

/// Whether the next update to be announced is of the network 500N's flood list, with this number.
fn announces_flood(routes: &mut LocalRoutes, n: u8, counter: u64) -> bool {
    let Some(update) = routes.announce() else {
        return false
    };
    let up = Content::Advert(Advert {
        is_static: false,
        sequence: 0,
        label2: None,
    });
    let value = update.value();
    update.register().key == Key::Flood(network(n))
        && update.register().originator == Addr::new(0x0a00_0002)
        && value.counter == counter
        && value.content == up
}

/// Returns whether the station is pinned and advertised, or `None` if a condition of the call does
/// not hold.
pub(super) fn pin(routes: &mut LocalRoutes, station: Station, port: u8) -> Option<bool> {
    if station.mac.is_group()
        || routes.vni_of(port) != Some(station.vni)
        || routes.look(&station).is_none() && routes.is_full()
        || routes.counter() >= 0x8000_0000_0000_0000
    {
        return None;
    }
    Some(routes.pin(&station, port).is_ok())
}

fn pins(routes: &mut LocalRoutes, station: Station, port: u8) -> bool {
    pin(routes, station, port) == Some(true)
}

/// The result of another edge's update, or `None` if it is the edge's own.
pub(super) fn import(routes: &mut LocalRoutes, said: Said) -> Option<Result<Imported, TakeError>> {
    let update = said.update()?;
    if update.register().originator == routes.address() {
        return None;
    }
    Some(routes.import(&update))
}

/// The result of an own update, or `None` if it is another edge's.
pub(super) fn import_own(routes: &mut LocalRoutes, said: Said) -> Option<Result<Taken, OwnError>> {
    let update = said.update()?;
    if update.register().originator != routes.address() {
        return None;
    }
    Some(routes.import_own(&update))
}
