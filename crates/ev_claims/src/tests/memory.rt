//! What calls make of refused memory: run with each allocation refused in turn,
//! these tests pass too.

use super::steps::{import, import_own, pin};
use super::{Edge, Name, STATIC, dynamic, knows, knows_not, own, reborn, saying, says, station};
use crate::{Imported, LocalRoutes, OwnError};
use route_join::{TakeError, Taken};
use route_wire::Content;
use std::test::Fail;

/// Whether the edge still says and knows nothing of a station, and has given this number last.
fn is_untouched(routes: &LocalRoutes, name: Name, counter: u64) -> bool {
    knows_not(routes, name) && says(routes, name).is_none() && routes.counter() == counter
}

/// Whether a station is advertised by the second try at the latest, and a refused
/// one changes nothing.
fn advertises(edge: &mut Edge, n: u8) -> bool {
    let (name, counter) = ((1, n), u64::from(n));
    if edge.advertise(station(name), 1, 0, 0) == Some(false)
        && (!is_untouched(&edge.routes, name, counter)
            || edge.advertise(station(name), 1, 0, 0) != Some(true))
    {
        return false;
    }
    knows(&edge.routes, name, 1, 0, false)
        && says(&edge.routes, name) == own(name, counter + 1, dynamic(0)).update()
}

#[test]
fn refused_advert_is_made_up_for(rt: HostRuntime) -> Result<(), Fail> {
    let mut edge = Edge::made(rt.alloc(), 0, false).ok_or("no edge")?;
    for n in 1u8..9 {
        assert!(rt; advertises(&mut edge, n));
    }
    assert_eq!(rt; edge.advertise(station((1, 9)), 1, 0, 0), None);
    Ok(())
}

/// Whether a station is pinned by the second try at the latest, and a refused one changes nothing.
fn pins(routes: &mut LocalRoutes, n: u8) -> bool {
    let (name, counter) = ((1, n), u64::from(n));
    if pin(routes, station(name), 1) == Some(false)
        && (!is_untouched(routes, name, counter) || pin(routes, station(name), 1) != Some(true))
    {
        return false;
    }
    knows(routes, name, 1, 0, true) && says(routes, name) == own(name, counter + 1, STATIC).update()
}

#[test]
fn refused_pin_is_made_up_for(rt: HostRuntime) -> Result<(), Fail> {
    let mut routes = Edge::made(rt.alloc(), 0, false).ok_or("no edge")?.routes;
    for n in 1u8..9 {
        assert!(rt; pins(&mut routes, n));
    }
    Ok(())
}

/// Whether a pinned station goes to another edge by the second try at the latest, and stays where
/// that edge's update is refused.
fn loses(routes: &mut LocalRoutes, n: u8) -> bool {
    let name = (1, n);
    if pin(routes, station(name), 1) == Some(false) && pin(routes, station(name), 1) != Some(true) {
        return false;
    }
    let counter = routes.counter();
    let mut heard = import(routes, saying(1, name, 1, STATIC));
    if heard == Some(Err(TakeError::NoMemory)) {
        if !knows(routes, name, 1, 0, true) || routes.counter() != counter {
            return false;
        }
        heard = import(routes, saying(1, name, 1, STATIC));
    }
    let lost = Imported {
        taken: Taken::Newer,
        lost_pinned: true,
    };
    heard == Some(Ok(lost)) && knows_not(routes, name)
}

#[test]
fn refused_update_takes_no_station(rt: HostRuntime) -> Result<(), Fail> {
    let mut routes = Edge::made(rt.alloc(), 0, false).ok_or("no edge")?.routes;
    for n in 1u8..9 {
        assert!(rt; loses(&mut routes, n));
    }
    Ok(())
}

/// Whether an advert of an earlier incarnation is withdrawn by the second try at the latest, and a
/// refused one changes nothing.
fn withdraws(routes: &mut LocalRoutes, n: u8) -> bool {
    let (name, counter) = ((1, n), u64::from(n));
    let mut taken = import_own(routes, own(name, 9, dynamic(4)));
    if taken == Some(Err(OwnError::NoMemory)) {
        if says(routes, name).is_some() || routes.counter() != counter {
            return false;
        }
        taken = import_own(routes, own(name, 9, dynamic(4)));
    }
    taken == Some(Ok(Taken::Newer))
        && says(routes, name) == reborn(name, counter + 1, Content::Withdrawn).update()
}

#[test]
fn refused_withdrawal_is_made_up_for(rt: HostRuntime) -> Result<(), Fail> {
    let mut routes = Edge::made(rt.alloc(), 1, false).ok_or("no edge")?.routes;
    for n in 1u8..9 {
        assert!(rt; withdraws(&mut routes, n));
    }
    Ok(())
}
