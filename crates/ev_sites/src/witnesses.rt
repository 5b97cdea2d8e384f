//! Fabrics that meet the premises of laws, here and in `ev_fabric`, as functions that do nothing:
//! the contract states that there is one.

ghost use Rattle.ev_sites.specs.Witnesses.{AdvertStays, FrameOfAFabric, MoveInTraffic};
ghost use Rattle.ev_sites.specs.Witnesses.{MoveOfAFabric, SessionOfAFabric, SitesOfAFabric};

use crate::sessions::{begun_anew, sessions_agree};
use ev_fabric::{
    agrees_on, every_run, frames_meanwhile, from_port_to_port, starts, station_agrees,
    station_agrees_after_a_move, station_moves_anyhow, taken_stays,
};
use rstp_run::{runs_happen, settled_by_lists};

/// A witness of `no_circle_in_a_fabric`, and so of `no_circle_through_tunnels` and
/// `every_run_can_be`: two edges, after a run from their opening, each the root of a ring of three
/// bridges at rest, with a hop by an edge and one through a tunnel.
pub fn fabric_has_sites()
    ensures { SitesOfAFabric }
{
    settled_by_lists();
    runs_happen();
}

/// A witness of `from_port_to_port` of `ev_fabric`: two edges that agree after a run from their
/// opening, and a station at one of them. A frame for it at a port of the other edge goes to the
/// station's edge only; and its datagram, entered there, goes only to the station's port, which
/// passes.
pub fn fabric_carries_a_frame()
    ensures { FrameOfAFabric }
{
    settled_by_lists();
    runs_happen();
    starts();
    every_run();
    from_port_to_port();
}

/// A witness of `station_moves`, `station_agrees_after_a_move` and `moves` of `ev_fabric`: from
/// there the station comes to the other edge, which learns it; two announcements and two deliveries
/// later, which are two rounds of the station, all agree again, and the other edge advertises it.
pub fn fabric_moves_a_station()
    ensures { MoveOfAFabric }
{
    settled_by_lists();
    runs_happen();
    agrees_on();
}

/// A witness of `station_agrees`, `station_agrees_after_a_move`, `taken_stays`,
/// `station_moves_anyhow` and `frames_meanwhile` of `ev_fabric`: three edges, after a run from
/// their opening. A station comes to the second edge. Between every two steps of its move, updates
/// of another station are pending and delivered.
pub fn fabric_moves_in_traffic()
    ensures { MoveInTraffic }
{
    settled_by_lists();
    runs_happen();
    starts();
    every_run();
    station_agrees();
    station_agrees_after_a_move();
    station_moves_anyhow();
    taken_stays();
    frames_meanwhile();
}

/// A witness of `sessions_agree` and `begun_anew`: two processes of edges, one with two and one
/// with one. After a run from their opening the edges of the first process restart. The other
/// process has an advert of an earlier life, of a station that its edge hasn't learnt since. A
/// session follows, in which an edge learns another station. At its end the advert is gone, and
/// both processes have the other station's advert. These steps are also a session of each two of
/// the three edges, if each edge is a process of its own.
pub fn a_session_can_be()
    ensures { SessionOfAFabric }
{
    settled_by_lists();
    runs_happen();
    starts();
    every_run();
    sessions_agree();
    begun_anew();
}

/// A counterexample to `sessions_agree` without its last premise (`alike`). Of two edges whose
/// registers are delivered as in a session, one restarted. It takes a withdrawal of its earlier
/// life first. Then an older advert comes back to it, and is no news. So it announces nothing, and
/// the other edge keeps that advert.
pub fn an_advert_can_stay()
    ensures { AdvertStays }
{
    settled_by_lists();
    runs_happen();
    starts();
    every_run();
    sessions_agree();
}
