//! Laws on how soon the edges agree on a station, in any traffic, and on where its frames go
//! meanwhile, as functions that do nothing: the contract is the law.
ghost use Rattle.ev_fabric.specs.Rounds.{TakenStays, StationAgrees, StationAgreesStill, AgreesInFour, AgreesInTwo};
ghost use Rattle.ev_fabric.specs.Meanwhile.{FramesMeanwhile};

/// States that an edge which has taken an update has it, or a newer one of its register, from then
/// on, in any run in which no edge restarts. So a round of a station counts each update that an
/// edge takes during it.
pub fn taken_stays()
    ensures { TakenStays }
{}

/// States that the edges agree on a station after `2 * to_come_on + 1` rounds of it, in any traffic
/// that doesn't disturb the station, and agree after each further round.
pub fn station_agrees()
    ensures soon { StationAgrees }
    ensures still { StationAgreesStill }
{}

/// States that four rounds after a move the edges agree on the station again, and after two rounds
/// if the announcements come first in each.
pub fn station_agrees_after_a_move()
    ensures four { AgreesInFour }
    ensures two { AgreesInTwo }
{}

/// States that between a move and the agreement on it each edge sends a frame for the station only
/// to the old place, only to the new place, or to all as for an unknown station, if no edge
/// restarts. Only the two places send it out of a port on which they have learnt the station.
pub fn frames_meanwhile()
    ensures { FramesMeanwhile }
{}
