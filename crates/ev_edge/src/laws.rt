//! Laws of edges, each a function that does nothing and whose contract is the law. A law on each
//! state of an edge covers all of them, so also those between two steps of a run.
ghost use Rattle.std.specs.Prelude.{◌≡◌, None};
ghost use Rattle.ev_claims.specs.Opening.{Opens};
ghost use Rattle.ev_edge.specs.Config.{IsConfig};
ghost use Rattle.ev_edge.specs.Opening.{IsOpening, start_of};
ghost use Rattle.ev_edge.specs.Steps.{Steps};
ghost use Rattle.ev_edge.specs.Laws.{decision_in, IsReserved, HoldsReserved, StaysGood};
ghost use Rattle.ev_edge.specs.Laws.{ChangesItsOwn, LeavesByMembers, LeavesNoTunnelByOne};
ghost use Rattle.ev_edge.specs.Laws.{OwnsItsAdverts, TakesNoMemory, BridgeHasOneOutcome};
ghost use Rattle.ev_edge.specs.Removed.{StepsRemove};
ghost use Rattle.ev_edge.specs.AwayLaws.{GivesNoneAway, FloodsForAway, ComesBack};
ghost use Rattle.ev_edge.specs.AwayLaws.{DependsNotOnAway, MarksOnlyAway, AsIfNeverAway};
ghost use Rattle.ev_edge.specs.LimitLaws.{LimitsNothing, KeepsLimits, KeepsToStations, StationsAreFew};
ghost use Rattle.ev_edge.specs.LimitLaws.{RegistersAreFew, RegistersAreFewFromTheOpening};
ghost use Rattle.ev_edge.specs.StormLaws.{StormsSpare, StormsCountNone, KeepsStormLimits, StormsAreFew};

use crate::config::EdgeConfig;
use crate::edge::Edge;
use crate::event::Event;
use crate::refusal::Refusal;
use crate::reply::Reply;
use ether_wire::Addr;
use rstp_run::one_outcome;

/// A good edge is good after each event, whatever the answer: it follows from the definition of a
/// step, and needs nothing that only this code does.
pub fn stays_good()
    ensures { StaysGood }
{}

/// The changes of a good edge's own registers at an event: the table takes the accepted update, and
/// then the edge's own updates. These take the numbers after the counter without a gap, and those
/// of their registers that were not pending are pending at the end, in the order of their numbers.
/// There is at most one more of them than the edge had stations.
pub fn own_changes()
    ensures { ChangesItsOwn }
{}

/// The opening is such a change from nothing: it advertises the flood list of each VNI, numbered
/// from 1.
pub fn opening_originates(config: &EdgeConfig, edge: &Edge)
    requires config { IsConfig config.now }
    requires opening { IsOpening config.now edge.now }
    ensures { Opens (start_of config.now) edge.now.routes }
{}

/// A frame that comes at an access port of a good edge leaves only by ports of its network that
/// pass at that event, and never by its own port.
pub fn leaves_by_members_that_pass()
    ensures { LeavesByMembers }
{}

/// A frame from a tunnel goes into no tunnel, and leaves a good edge only by ports of its network
/// that pass at that event.
pub fn never_from_tunnel_to_tunnel()
    ensures { LeavesNoTunnelByOne }
{}

/// A frame to a reserved destination goes nowhere.
pub fn reserved_goes_nowhere(
    before: &Edge,
    port: u8,
    octets: &[u8],
    answer: &Result<Reply, Refusal>,
    after: &Edge,
)
    requires reserved { IsReserved octets.now }
    requires step { Steps before.now (Event.Frame port octets) answer.now after.now }
    ensures { decision_in answer.now ≡ None }
{}

/// Nor does one from a tunnel.
pub fn reserved_in_tunnel_goes_nowhere(
    before: &Edge,
    from: Addr,
    octets: &[u8],
    answer: &Result<Reply, Refusal>,
    after: &Edge,
)
    requires reserved { HoldsReserved octets.now }
    requires step { Steps before.now (Event.TunnelFrame from octets) answer.now after.now }
    ensures { decision_in answer.now ≡ None }
{}

/// The stations that a good edge has learnt or pinned are exactly those that it advertises, as
/// static exactly the pinned ones, and it owns each of them.
pub fn advertises_its_own()
    ensures { OwnsItsAdverts }
{}

/// Seconds, ports that come up or go down, frames from tunnels, BPDUs, unpinning, thawing,
/// announcing, other edges that go away or come back, and taking another edge's update of an
/// existing register never report refused memory.
pub fn takes_no_memory()
    ensures { TakesNoMemory }
{}

/// At each event of a good edge exactly those stations leave the learning table that pass the
/// event's test: an unpinned one at a port that the bridge flushes; as a second passes also an
/// unpinned one that is too old by the new second; the station of another edge's update, if the
/// edge's own advert is no longer the best one; and a pinned one that is unpinned. A frame removes
/// none except through a BPDU, and a refused event removes none.
pub fn steps_remove()
    ensures { StepsRemove }
{}

/// An event of the bridge has one answer and one edge afterwards: a second, a port that goes up or
/// down, a check of migration, or a frame with a BPDU. They are functions of edge and event.
pub fn bridge_has_one_outcome()
    ensures { BridgeHasOneOutcome }
{
    one_outcome();
}

/// No decision of an edge names an edge that is away.
pub fn gives_none_away()
    ensures { GivesNoneAway }
{}

/// The decision for a destination whose owner is away is that for a destination that no edge owns:
/// if the destination isn't learnt, the frame is flooded.
pub fn floods_for_away()
    ensures { FloodsForAway }
{}

/// An edge that goes away and comes back leads to the edge that was there, if it wasn't away
/// before.
pub fn comes_back()
    ensures { ComesBack }
{}

/// Which edges are away changes only by the events `Away` and `Back`. At any other event an edge
/// does what it would do with all edges up: the answers differ in the decision at most, and the
/// edges afterwards only in who is away.
pub fn depends_not_on_away()
    ensures { DependsNotOnAway }
{}

/// An edge that goes away or comes back changes nothing but who is away.
pub fn marks_only_away()
    ensures { MarksOnlyAway }
{}

/// If no edge is away at the beginning of a run and at its end, the same run without the edges that
/// went away and came back leads to the same edge, with the same answers but for decisions.
pub fn as_if_never_away()
    ensures { AsIfNeverAway }
{}

/// At a port without limits the limits of ports change nothing: neither the case of a station nor
/// what is counted.
pub fn limits_nothing()
    ensures { LimitsNothing }
{}

/// No event changes the limits of a port.
pub fn keeps_limits()
    ensures { KeepsLimits }
{}

/// Except by pins, a port of a good edge gets further stations only by its own frames, and no more
/// of them than its limit allows.
pub fn keeps_to_stations()
    ensures { KeepsToStations }
{}

/// In a run without pins from a good edge, a port that has no more stations than its limit allows
/// has no more at the end.
pub fn stations_are_few()
    ensures { StationsAreFew }
{}

/// In less than `m` minutes of a run from a good edge, the frames at a port that may bring `n` new
/// stations a minute make at most `(m + 1) * n` registers.
pub fn registers_are_few()
    ensures { RegistersAreFew }
{}

/// In the first `m` minutes since the opening they make at most `m * n` registers.
pub fn registers_are_few_from_the_opening()
    ensures { RegistersAreFewFromTheOpening }
{}

/// At a port without a storm limit, and for octets that are no group and no unknown frame, storm
/// limits change nothing: a BPDU and a frame for a known station are never dropped for them.
pub fn storms_spare()
    ensures { StormsSpare }
{}

/// Nor are such frames counted.
pub fn storms_count_none()
    ensures { StormsCountNone }
{}

/// No event changes the storm limit of a port.
pub fn keeps_storm_limits()
    ensures { KeepsStormLimits }
{}

/// In less than `s` seconds the edge takes on at most `s * n` group and unknown frames at a port
/// whose storm limit is `n`.
pub fn storms_are_few()
    ensures { StormsAreFew }
{}
