//! The rules by name: the guard of each rule at a port, and its firing.

ghost use Rattle.std.specs.Prelude.{◌≡◌, ◌<◌, length, true};
ghost use Rattle.rstp_run.specs.Machines.{
  receive_asks,
  receive_does,
  migration_asks,
  migration_does,
  detection_asks,
  detection_does,
  information_asks,
  information_does,
  topology_asks,
  topology_does,
  transmit_asks,
  transmit_does,
};

use crate::bridge_detection::{edge, edge_guard, not_edge, not_edge_guard};
use crate::information::{
    aged, aged_guard, disabled, disabled_guard, drop_guard, drop_message, enabled, enabled_guard,
    inferior, inferior_guard, not_designated, not_designated_guard, other, other_guard, repeated,
    repeated_guard, superior, superior_guard, update, update_guard,
};
use crate::migration::{
    checked_guard, enter_checking, enter_selecting, enter_sensing, recheck_guard, selected_guard,
    to_rstp_guard, to_stp_guard,
};
use crate::port_receive::{discard, discard_guard, receive, receive_guard};
use crate::rule::{
    DetectionRule, InformationRule, MigrationRule, ReceiveRule, TopologyRule, TransmitRule,
};
use crate::topology_change::{
    acknowledged, acknowledged_guard, detected, detected_guard, flush, flush_guard, notified_tc,
    notified_tc_guard, notified_tcn, notified_tcn_guard, propagating, propagating_guard, tc_back,
    tc_back_guard, tc_clear, tc_clear_guard, tc_inactive, tc_inactive_guard, tc_learning,
    tc_learning_guard,
};
use crate::transmit::{
    periodic, periodic_guard, send_config, send_config_guard, send_rst, send_rst_guard, send_tcn,
    send_tcn_guard,
};
use rstp_state::{PortState, Timing};

/// Returns `true` if a receive rule is enabled at a port.
pub(crate) fn receive_is_enabled(port: &PortState, rule: ReceiveRule) -> bool
    ensures { result ≡ receive_asks rule port.now }
{
    match rule {
        ReceiveRule::Discard => discard_guard(port),
        ReceiveRule::Receive => receive_guard(port),
    }
}

/// Fires a receive rule at a port.
pub(crate) fn fire_receive(port: &mut PortState, rule: ReceiveRule)
    ensures { port.new ≡ receive_does rule port.old }
{
    match rule {
        ReceiveRule::Discard => discard(port),
        ReceiveRule::Receive => receive(port),
    }
}

/// Returns `true` if a rule of protocol migration is enabled at a port.
pub(crate) fn migration_is_enabled(port: &PortState, rule: MigrationRule) -> bool
    ensures { result ≡ migration_asks rule port.now }
{
    match rule {
        MigrationRule::Recheck => recheck_guard(port),
        MigrationRule::Checked => checked_guard(port),
        MigrationRule::Selected => selected_guard(port),
        MigrationRule::ToRstp => to_rstp_guard(port),
        MigrationRule::ToStp => to_stp_guard(port),
    }
}

/// Fires a rule of protocol migration at a port.
pub(crate) fn fire_migration(port: &mut PortState, rule: MigrationRule)
    ensures { port.new ≡ migration_does rule port.old }
{
    match rule {
        MigrationRule::Recheck => enter_checking(port),
        MigrationRule::Checked => enter_sensing(port),
        MigrationRule::Selected => enter_sensing(port),
        MigrationRule::ToRstp => enter_checking(port),
        MigrationRule::ToStp => enter_selecting(port),
    }
}

/// Returns `true` if a rule of bridge detection is enabled at a port.
pub(crate) fn detection_is_enabled(port: &PortState, rule: DetectionRule) -> bool
    ensures { result ≡ detection_asks rule port.now }
{
    match rule {
        DetectionRule::Edge => edge_guard(port),
        DetectionRule::NotEdge => not_edge_guard(port),
    }
}

/// Fires a rule of bridge detection at a port.
pub(crate) fn fire_detection(port: &mut PortState, rule: DetectionRule)
    ensures { port.new ≡ detection_does rule port.old }
{
    match rule {
        DetectionRule::Edge => edge(port),
        DetectionRule::NotEdge => not_edge(port),
    }
}

/// Returns `true` if an information rule is enabled at a port.
pub(crate) fn information_is_enabled(port: &PortState, rule: InformationRule) -> bool
    ensures { result ≡ information_asks rule port.now }
{
    match rule {
        InformationRule::Disabled => disabled_guard(port),
        InformationRule::Drop => drop_guard(port),
        InformationRule::Enabled => enabled_guard(port),
        InformationRule::Update => update_guard(port),
        InformationRule::Aged => aged_guard(port),
        InformationRule::Superior => superior_guard(port),
        InformationRule::Repeated => repeated_guard(port),
        InformationRule::Inferior => inferior_guard(port),
        InformationRule::NotDesignated => not_designated_guard(port),
        InformationRule::Other => other_guard(port),
    }
}

/// Fires an information rule at a port.
pub(crate) fn fire_information(port: &mut PortState, rule: InformationRule)
    ensures { port.new ≡ information_does rule port.old }
{
    match rule {
        InformationRule::Disabled => disabled(port),
        InformationRule::Drop => drop_message(port),
        InformationRule::Enabled => enabled(port),
        InformationRule::Update => update(port),
        InformationRule::Aged => aged(port),
        InformationRule::Superior => superior(port),
        InformationRule::Repeated => repeated(port),
        InformationRule::Inferior => inferior(port),
        InformationRule::NotDesignated => not_designated(port),
        InformationRule::Other => other(port),
    }
}

/// Returns `true` if a rule of topology change is enabled at a port.
pub(crate) fn topology_is_enabled(port: &PortState, rule: TopologyRule) -> bool
    ensures { result ≡ topology_asks rule port.now }
{
    match rule {
        TopologyRule::TcLearning => tc_learning_guard(port),
        TopologyRule::Detected => detected_guard(port),
        TopologyRule::TcClear => tc_clear_guard(port),
        TopologyRule::TcInactive => tc_inactive_guard(port),
        TopologyRule::TcBack => tc_back_guard(port),
        TopologyRule::NotifiedTcn => notified_tcn_guard(port),
        TopologyRule::NotifiedTc => notified_tc_guard(port),
        TopologyRule::Propagating => propagating_guard(port),
        TopologyRule::Acknowledged => acknowledged_guard(port),
        TopologyRule::Flush => flush_guard(port),
    }
}

/// Fires the rule at the port at place `p`.
pub(crate) fn fire_topology(timing: &Timing, ports: &mut [PortState], rule: TopologyRule, p: usize)
    requires { p < length ports.old }
    ensures { ports.new ≡ topology_does rule timing.now ports.old p }
{
    match rule {
        TopologyRule::TcLearning => tc_learning(&mut ports[p]),
        TopologyRule::Detected => detected(timing, ports, p),
        TopologyRule::TcClear => tc_clear(&mut ports[p]),
        TopologyRule::TcInactive => tc_inactive(&mut ports[p]),
        TopologyRule::TcBack => tc_back(&mut ports[p]),
        TopologyRule::NotifiedTcn => notified_tcn(timing, ports, p),
        TopologyRule::NotifiedTc => notified_tc(ports, p),
        TopologyRule::Propagating => propagating(timing, &mut ports[p]),
        TopologyRule::Acknowledged => acknowledged(&mut ports[p]),
        TopologyRule::Flush => flush(&mut ports[p]),
    }
}

/// Returns `true` if a transmit rule is enabled at a port.
pub(crate) fn transmit_is_enabled(timing: &Timing, port: &PortState, rule: TransmitRule) -> bool
    ensures { result ≡ transmit_asks rule timing.now port.now }
{
    match rule {
        TransmitRule::Periodic => periodic_guard(port),
        TransmitRule::SendConfig => send_config_guard(timing, port),
        TransmitRule::SendTcn => send_tcn_guard(timing, port),
        TransmitRule::SendRst => send_rst_guard(timing, port),
    }
}

/// Fires a transmit rule at a port.
pub(crate) fn fire_transmit(timing: &Timing, port: &mut PortState, rule: TransmitRule)
    requires { transmit_asks rule timing.now port.old ≡ true }
    ensures { port.new ≡ transmit_does rule timing.now port.old }
{
    match rule {
        TransmitRule::Periodic => periodic(timing, port),
        TransmitRule::SendConfig => send_config(timing, port),
        TransmitRule::SendTcn => send_tcn(timing, port),
        TransmitRule::SendRst => send_rst(timing, port),
    }
}
