//! Laws of every bridge that is reachable from its start by events.

ghost use Rattle.rstp_run.specs.Events.{OneOutcome, RunsHappen};
ghost use Rattle.rstp_run.specs.Firings.{
  EventEndsSettled,
  EventsAreShort,
  EveryEventSettles,
  SelectsTwice,
  StaysSettled,
};
ghost use Rattle.rstp_run.specs.Lasting.{LastingIsReached, LosingKeepsTree, RolesLast, SelectionIsCurrent};
ghost use Rattle.rstp_run.specs.Laws.{EdgeRests};
ghost use Rattle.rstp_run.specs.RootPort.{OneRootPort};
ghost use Rattle.rstp_run.specs.Settled.{
  EventsSettle,
  OfSettledPorts,
  Sends,
  HasWhatItSends,
  IsFollowedAsRoot,
  PassingIsInTree,
  PortsAreNumbered,
  SettledByLists,
};

/// A settled bridge has at most one root port, for all events that led to it.
pub fn one_root_port()
    ensures { OneRootPort }
{}

/// A port of a settled bridge sends the root's vector and times.
pub fn settled_port_sends()
    ensures { OfSettledPorts Sends }
{}

/// A designated port of a settled bridge has the vector that it sends.
pub fn designated_port_has()
    ensures { OfSettledPorts HasWhatItSends }
{}

/// The bridge is one further from the root than its root port's received information, which isn't
/// too old.
pub fn root_port_is_followed()
    ensures { OfSettledPorts IsFollowedAsRoot }
{}

/// A port that passes frames is the root port or a designated port.
pub fn passing_is_in_tree()
    ensures { PassingIsInTree }
{}

/// Each port's identifier has its number.
pub fn ports_are_numbered()
    ensures { PortsAreNumbered }
{}

/// A bridge is settled if no rule is enabled at any of its ports.
pub fn settled_by_lists()
    ensures { SettledByLists }
{}

/// The result of the sweep from the event's direct effect is a possible effect of the event.
pub fn runs_happen()
    ensures { RunsHappen }
{}

/// An event of a bridge has one outcome: the bridge afterwards, whether it is settled, and the
/// flushed ports are functions of the bridge, the event and the limit.
pub fn one_outcome()
    ensures { OneOutcome }
{}

/// Every event of a bridge ends settled, if its limit of firings is at least `enough_firings` of
/// the number of ports, and the Hello time isn't 0. So no rules of the table fire in a circle.
pub fn events_settle()
    ensures { EventsSettle }
{}

/// At an event of a settled bridge that is reachable from its start by events, Select fires at most
/// twice.
pub fn selects_twice()
    ensures { SelectsTwice }
{}

/// An event of a settled bridge that is reachable from its start by events has at most
/// `most_firings` firings, if the Hello time isn't 0.
pub fn events_are_short()
    ensures { EventsAreShort }
{}

/// A bridge is settled after each event from its start on, if each may have more than
/// `most_firings` firings, and the Hello time isn't 0.
pub fn stays_settled()
    ensures { StaysSettled }
{}

/// An event of a settled bridge that is reachable from its start by events ends settled, if its
/// limit of firings is at least that of `Bridge::event`, and the Hello time isn't 0.
pub fn event_ends_settled()
    ensures { EventEndsSettled }
{}

/// Every event ends settled, at each bridge that came from its start by events with the limit of
/// `Bridge::event`, if the Hello time isn't 0.
pub fn every_event_settles()
    ensures { EveryEventSettles }
{}

/// At a port that is down, Edge and NotEdge don't enable each other after Discard has fired there.
pub fn edge_rests()
    ensures { EdgeRests }
{}

/// After events at which Select never fires, each port of a settled bridge has the role that it had
/// before them.
pub fn roles_last()
    ensures { RolesLast }
{}

/// A bridge is still reachable from its start by events after events at which Select never fires.
pub fn lasting_is_reached()
    ensures { LastingIsReached }
{}

/// In a settled bridge the root and the roles are those that selection gives for the present
/// information of its ports.
pub fn selection_is_current()
    ensures { SelectionIsCurrent }
{}

/// After a port of a settled bridge went down that isn't its root port, each port that is the root
/// port or a designated port was one before, if the bridge is settled again.
pub fn losing_keeps_tree()
    ensures { LosingKeepsTree }
{}
