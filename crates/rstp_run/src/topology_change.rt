//! The topology change rules (17.31): bridges flush learnt addresses if the tree has changed, and
//! announce the change to each other.

ghost use Rattle.std.specs.Prelude.{◌≡◌, ◌<◌, length, map};
ghost use Rattle.rstp_state.specs.Port.{is_active, is_inactive, is_learning};
ghost use Rattle.rstp_run.specs.TopologyChange.{
  is_in_tree,
  has_changes,
  without_changes,
  with_change_timer,
  with_propagation,
  detected_at,
  notified_at,
  notified_tcn_at,
};
ghost use Rattle.rstp_run.specs.TopologyChange.{
  tc_learning_guard,
  tc_learning_effect,
  detected_guard,
  detected_effect,
  tc_clear_guard,
  tc_clear_effect,
  tc_inactive_guard,
  tc_inactive_effect,
  tc_back_guard,
  tc_back_effect,
  notified_tcn_guard,
  notified_tcn_effect,
  notified_tc_guard,
  notified_tc_effect,
  propagating_guard,
  propagating_effect,
  acknowledged_guard,
  acknowledged_effect,
  flush_guard,
  flush_effect,
};

use rstp_state::{PortState, Timing, Topology};

/// Returns `true` if the machine is in its state Inactive.
fn is_inactive(state: Topology) -> bool
    ensures { result ≡ is_inactive state }
{
    matches!(state, Topology::Inactive)
}

/// Returns `true` if the machine is in its state Learning.
fn is_learning(state: Topology) -> bool
    ensures { result ≡ is_learning state }
{
    matches!(state, Topology::Learning)
}

/// Returns `true` if the machine is in its state Active.
pub(crate) fn is_active(state: Topology) -> bool
    ensures { result ≡ is_active state }
{
    matches!(state, Topology::Active)
}

/// Returns `true` if the port is in the tree by its role: root or designated.
fn is_in_tree(port: &PortState) -> bool
    ensures { result ≡ is_in_tree port.now }
{
    port.role.is_root() || port.role.is_designated()
}

/// Returns `true` if the port has a change that it hasn't processed: received, acknowledged, or to
/// be passed on.
fn has_changes(port: &PortState) -> bool
    ensures { result ≡ has_changes port.now }
{
    port.received_topology_change
        || port.received_notification
        || port.received_acknowledgement
        || port.propagate_topology_change
}

/// Clears the port's changes: received, acknowledged, and to be passed on.
fn clear_changes(port: &mut PortState)
    ensures { port.new ≡ without_changes port.old }
{
    port.received_topology_change = false;
    port.received_notification = false;
    port.received_acknowledgement = false;
    port.propagate_topology_change = false;
}

/// Starts the time in which the port sends the change, unless it is running (17.21.7, newTcWhile).
fn start_change_timer(timing: &Timing, port: &mut PortState)
    ensures { port.new ≡ with_change_timer timing.now port.old }
{
    if port.topology_change_while == 0 {
        if port.send_rstp {
            port.topology_change_while = u32::from(timing.hello) + 1;
            port.new_info = true;
        } else {
            port.topology_change_while = u32::from(timing.max_age)
                + u32::from(timing.forward_delay);
        }
    }
}

/// Marks the port to pass on a change.
fn propagate_change(port: &mut PortState)
    ensures { port.new ≡ with_propagation port.old }
{
    port.propagate_topology_change = true;
}

/// Marks every port to pass on a change.
fn propagate_changes(ports: &mut [PortState])
    ensures { ports.new ≡ map with_propagation ports.old }
{
    for port in ports.iter_mut() {
        propagate_change(port);
    }
}

/// Returns `true` if the machine is Inactive at a port that begins to learn.
pub(crate) fn tc_learning_guard(port: &PortState) -> bool
    ensures { result ≡ tc_learning_guard port.now }
{
    is_inactive(port.topology) && port.learn && !port.flush
}

/// Enters Learning: the port begins to learn.
pub(crate) fn tc_learning(port: &mut PortState)
    ensures { port.new ≡ tc_learning_effect port.old }
{
    clear_changes(port);
    port.topology = Topology::Learning;
}

/// Returns `true` if a port of the tree begins to forward, which is a change.
pub(crate) fn detected_guard(port: &PortState) -> bool
    ensures { result ≡ detected_guard port.now }
{
    is_learning(port.topology) && is_in_tree(port) && port.forward && !port.oper_edge
}

/// Makes the port active, which is a change: the port sends it for some time.
fn detect(timing: &Timing, port: &mut PortState)
    ensures { port.new ≡ detected_at timing.now port.old }
{
    port.topology = Topology::Active;
    start_change_timer(timing, port);
    port.new_info = true;
}

/// Makes the port active as it begins to forward, and marks every other port to pass on this
/// change.
pub(crate) fn detected(timing: &Timing, ports: &mut [PortState], p: usize)
    requires { p < length ports.old }
    ensures { ports.new ≡ detected_effect timing.now p ports.old }
{
    let mut port = ports[p];
    detect(timing, &mut port);
    propagate_changes(ports);
    ports[p] = port;
}

/// Returns `true` if a port that isn't active has a change to clear.
pub(crate) fn tc_clear_guard(port: &PortState) -> bool
    ensures { result ≡ tc_clear_guard port.now }
{
    is_learning(port.topology) && has_changes(port) && !detected_guard(port)
}

/// Clears the changes of a port that is not active.
pub(crate) fn tc_clear(port: &mut PortState)
    ensures { port.new ≡ tc_clear_effect port.old }
{
    clear_changes(port);
}

/// Returns `true` if a port outside the tree no longer learns.
pub(crate) fn tc_inactive_guard(port: &PortState) -> bool
    ensures { result ≡ tc_inactive_guard port.now }
{
    is_learning(port.topology)
        && !is_in_tree(port)
        && !port.learn
        && !port.learning
        && !has_changes(port)
}

/// Enters Inactive: the port no longer learns, so its learnt addresses have to be flushed.
pub(crate) fn tc_inactive(port: &mut PortState)
    ensures { port.new ≡ tc_inactive_effect port.old }
{
    port.topology = Topology::Inactive;
    port.flush = true;
    port.topology_change_while = 0;
    port.acknowledge_topology_change = false;
}

/// Returns `true` if an active port left the tree, or is an edge.
pub(crate) fn tc_back_guard(port: &PortState) -> bool
    ensures { result ≡ tc_back_guard port.now }
{
    is_active(port.topology) && (!is_in_tree(port) || port.oper_edge)
}

/// Goes back to Learning: the port left the tree, or is an edge.
pub(crate) fn tc_back(port: &mut PortState)
    ensures { port.new ≡ tc_back_effect port.old }
{
    clear_changes(port);
    port.topology = Topology::Learning;
}

/// Returns `true` if an active port received a change from a bridge of the older protocol.
pub(crate) fn notified_tcn_guard(port: &PortState) -> bool
    ensures { result ≡ notified_tcn_guard port.now }
{
    is_active(port.topology) && port.received_notification
}

/// Clears the received change; a designated port has to acknowledge it.
fn note(port: &mut PortState)
    ensures { port.new ≡ notified_at port.old }
{
    port.received_notification = false;
    port.received_topology_change = false;
    port.acknowledge_topology_change = port.acknowledge_topology_change
        || port.role.is_designated();
}

/// Starts the time in which the port sends the change, and clears the received change.
fn note_notification(timing: &Timing, port: &mut PortState)
    ensures { port.new ≡ notified_tcn_at timing.now port.old }
{
    start_change_timer(timing, port);
    note(port);
}

/// Processes a change that a bridge of the older protocol announced: every other port has to pass
/// it on.
pub(crate) fn notified_tcn(timing: &Timing, ports: &mut [PortState], p: usize)
    requires { p < length ports.old }
    ensures { ports.new ≡ notified_tcn_effect timing.now p ports.old }
{
    let mut port = ports[p];
    note_notification(timing, &mut port);
    propagate_changes(ports);
    ports[p] = port;
}

/// Returns `true` if a message announced a change to an active port.
pub(crate) fn notified_tc_guard(port: &PortState) -> bool
    ensures { result ≡ notified_tc_guard port.now }
{
    is_active(port.topology) && port.received_topology_change
}

/// Processes a change that a message announced: every other port has to pass it on.
pub(crate) fn notified_tc(ports: &mut [PortState], p: usize)
    requires { p < length ports.old }
    ensures { ports.new ≡ notified_tc_effect p ports.old }
{
    let mut port = ports[p];
    note(&mut port);
    propagate_changes(ports);
    ports[p] = port;
}

/// Returns `true` if an active port that isn't an edge has to pass on a change.
pub(crate) fn propagating_guard(port: &PortState) -> bool
    ensures { result ≡ propagating_guard port.now }
{
    is_active(port.topology) && port.propagate_topology_change && !port.oper_edge
}

/// Passes on a change; the addresses learnt at the port have to be flushed.
pub(crate) fn propagating(timing: &Timing, port: &mut PortState)
    ensures { port.new ≡ propagating_effect timing.now port.old }
{
    start_change_timer(timing, port);
    port.flush = true;
    port.propagate_topology_change = false;
}

/// Returns `true` if an active port's change was acknowledged.
pub(crate) fn acknowledged_guard(port: &PortState) -> bool
    ensures { result ≡ acknowledged_guard port.now }
{
    is_active(port.topology) && port.received_acknowledgement
}

/// Ends the sending of the change: the other end acknowledged it.
pub(crate) fn acknowledged(port: &mut PortState)
    ensures { port.new ≡ acknowledged_effect port.old }
{
    port.topology_change_while = 0;
    port.received_acknowledgement = false;
}

/// Returns `true` if the addresses learnt at the port have to be flushed.
pub(crate) fn flush_guard(port: &PortState) -> bool
    ensures { result ≡ flush_guard port.now }
{
    port.flush
}

/// Flushes the addresses learnt at the port; the event's result reports the flush.
pub(crate) fn flush(port: &mut PortState)
    ensures { port.new ≡ flush_effect port.old }
{
    port.flush = false;
}
