//! Laws of networks of bridges at rest, and of the ways of frames over quiet segments.

ghost use Rattle.ev_sites.specs.After.{NoCircleAfterLosses, NoCircleUntilSelection, NoCircleWithin};
ghost use Rattle.ev_sites.specs.After.{
  NoCircleWhileKept,
  RingCanBeCut,
  RingCanBeKept,
  RingCanLast,
};
ghost use Rattle.ev_sites.specs.Inner.Bridges.{BridgeLaws};
ghost use Rattle.ev_sites.specs.Network.{
  CanBeAtRest,
  OneDesignatedPort,
  NoCircle,
  NoQuietCircle,
  RingCanBeAtRest,
  WaysAreShort,
};

use rstp_run::{
    designated_port_has, lasting_is_reached, losing_keeps_tree, one_root_port, passing_is_in_tree,
    ports_are_numbered, roles_last, root_port_is_followed, runs_happen, settled_by_lists,
    settled_port_sends,
};
use rstp_state::never_equally_good;

/// The laws of bridges that the laws below need: only laws of `rstp_run` and `rstp_state`.
fn bridge_laws()
    ensures { BridgeLaws }
{
    settled_port_sends();
    designated_port_has();
    root_port_is_followed();
    one_root_port();
    passing_is_in_tree();
    ports_are_numbered();
    never_equally_good();
}

/// A quiet segment has at most one designated port of a settled bridge.
pub fn one_designated_port()
    ensures { OneDesignatedPort }
{
    bridge_laws();
}

/// In a network at rest no frame returns to a port where it entered before.
pub fn no_circle()
    ensures { NoCircle }
{
    bridge_laws();
}

/// In any network, at any time, no frame returns to a port where it entered before on a way over
/// quiet segments.
pub fn no_quiet_circle()
    ensures { NoQuietCircle }
{
    bridge_laws();
}

/// After a rest no frame returns to a port where it entered before, as long as no port passes
/// frames that was blocked or disabled at rest. The bridges may have changed in any other way.
pub fn no_circle_within()
    ensures { NoCircleWithin }
{
    bridge_laws();
}

/// After a rest no frame returns to a port where it entered before, as long as bridges select
/// their roots and roles again only because they lost ports that weren't their root ports. Any
/// number of ports may go down, at any bridges, and any other events may come before, between and
/// after them.
pub fn no_circle_while_kept()
    ensures { NoCircleWhileKept }
{
    no_circle_within();
    roles_last();
    lasting_is_reached();
    losing_keeps_tree();
    passing_is_in_tree();
}

/// After a rest no frame returns to a port where it entered before, until some bridge selects its
/// root and roles again: after any other events, at any bridges, in any order.
pub fn no_circle_until_selection()
    ensures { NoCircleUntilSelection }
{
    no_circle_while_kept();
}

/// After a rest no frame returns to a port where it entered before, if some bridges lose a port
/// each that isn't their root port, and the rules of these bridges have fired. Messages may be on
/// their way, but none is delivered yet.
pub fn no_circle_after_losses()
    ensures { NoCircleAfterLosses }
{
    no_circle_while_kept();
}

/// A way over quiet segments crosses at most as many segments as the message ages of its two ends
/// together, plus 1.
pub fn ways_are_short()
    ensures { WaysAreShort }
{
    bridge_laws();
}

/// A network can be at rest, with ports that pass frames.
pub fn can_be_at_rest()
    ensures { CanBeAtRest }
{
    settled_by_lists();
    runs_happen();
}

/// A witness of `no_circle`, `no_quiet_circle` and `ways_are_short` for a network with a ring:
/// three bridges in a ring can be at rest. Each bridge is reachable from its start by events. A
/// frame could run round the ring, except that the last port is blocked.
pub fn ring_can_be_at_rest()
    ensures { RingCanBeAtRest }
{
    settled_by_lists();
    runs_happen();
}

/// A witness of `no_circle_until_selection` and `no_circle_within` in which events happened after
/// the rest: two seconds pass at the root of the ring, and its Hello messages arrive at the two
/// other bridges. No bridge is in the state that it had at rest. Frames cross two bridges, and
/// could run round the ring, except that the last port is blocked.
pub fn ring_can_last()
    ensures { RingCanLast }
{
    settled_by_lists();
    runs_happen();
    roles_last();
    lasting_is_reached();
    losing_keeps_tree();
    passing_is_in_tree();
}

/// A witness of `no_circle_after_losses` and `no_circle_within` in which a port went down after
/// the rest: a bridge of the ring loses the designated port that joins it to the blocked port. A
/// frame still crosses the root.
pub fn ring_can_be_cut()
    ensures { RingCanBeCut }
{
    settled_by_lists();
    runs_happen();
    roles_last();
    lasting_is_reached();
    losing_keeps_tree();
    passing_is_in_tree();
}

/// A witness of `no_circle_while_kept`: the ring of `ring_can_be_cut`, two seconds later. The two
/// other bridges have received the root's Hello messages, the one that lost the port after its
/// loss. No bridge is in the state that it had at rest, and a frame still crosses the root.
pub fn ring_can_be_kept()
    ensures { RingCanBeKept }
{
    settled_by_lists();
    runs_happen();
    roles_last();
    lasting_is_reached();
    losing_keeps_tree();
    passing_is_in_tree();
}
