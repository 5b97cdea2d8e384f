//! Laws about one station, as functions that do nothing: the contract is the law. They have no
//! premise on other stations, or on other pending or missing updates.
ghost use Rattle.ev_fabric.specs.Fabric.{Fabric as State};
ghost use Rattle.ev_fabric.specs.Agreed.{AllAgree};
ghost use Rattle.ev_fabric.specs.Station.{AgreesOnEach, AgreedStation, StationFramesGo, StationFromPortToPort, StationMoves};
ghost use Rattle.ev_fabric.specs.Station.{StationMovesAnyhow, StationArrives, StationLasts, StationReached, StationSettles};

/// States that all edges agree exactly if they agree on each station and on each flood list.
pub fn agrees_on()
    ensures each { (f : State) → AllAgree f → AgreesOnEach f }
    ensures all { (f : State) → AgreesOnEach f → AllAgree f }
{}

/// States that edges which agree on a station have the same newest values of its registers. At most
/// one edge of all advertises the station, that edge has learnt it on a port of its VNI, every edge
/// takes that one for the owner, and no advert of an earlier incarnation is left.
pub fn agreed_station()
    ensures { AgreedStation }
{}

/// States that, if the edges agree on a station that one of them advertises, the next frame for it
/// at another edge, from another source address on a port that passes, goes to the advertising edge
/// only.
pub fn station_frames_go()
    ensures { StationFramesGo }
{}

/// States the end-to-end form of `station_frames_go`. The datagram of the frame's VNI and octets,
/// as `wrap` of `ev_tunnel` writes it, entered unchanged at the advertising edge, isn't refused and
/// goes only to the port on which the station is learnt, if that port passes.
pub fn station_from_port_to_port()
    ensures { StationFromPortToPort }
{}

/// States what happens if a station on which the edges agree comes to another edge, which learns it
/// by a frame or has it pinned, in the middle of all other traffic. Whenever they agree on it
/// again, the pool has got exactly two updates of its registers, the new edge's advert and the old
/// edge's withdrawal, the new edge owns it at every edge, and the old one advertises it no more.
pub fn station_moves()
    ensures { StationMoves }
{}

/// States the same result for a move during which the old edge may lose the station by itself: the
/// station ages out, or is flushed or unpinned there, before the old edge takes the new advert. The
/// pool gets the same two updates, in any order, and the new edge owns the station at every edge.
pub fn station_moves_anyhow()
    ensures { StationMovesAnyhow }
{}

/// States how far it is from a move to agreement on the station. The new edge announces its pending
/// updates, and one more; each edge takes one update; the old edge announces its pending updates,
/// and one more; each edge takes one update. Then they agree, with any other updates pending and
/// missing elsewhere.
pub fn station_arrives()
    ensures { StationArrives }
{}

/// States that edges which agree on a station go on agreeing on it, with nothing more of it
/// announced. In the meantime any other events may come to any edge, and any updates be announced
/// and delivered, if no event from outside changes the station's registers and no edge restarts.
/// Two rounds lead every opened fabric to this agreement.
pub fn station_lasts()
    ensures stays { StationLasts }
    ensures reached { StationReached }
{}

/// States that an undisturbed station is announced a bounded number of times: its updates in the
/// pool, plus those that are pending, the one for its advert, and those that may still come back,
/// never grow in number, in any other traffic.
pub fn station_settles()
    ensures { StationSettles }
{}
