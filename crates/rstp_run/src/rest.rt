//! A quick test of a port before the sweep tries its rules one by one: in most seconds no machine
//! has anything to do there. A machine that isn't busy has no enabled rule.

ghost use Rattle.std.specs.Prelude.{◌≡◌, ◌<◌, length};
ghost use Rattle.rstp_run.specs.Inner.Rest.{receive_is_busy, migration_is_busy, detection_is_busy, information_is_busy, keeps_forwarding, role_is_busy, state_is_busy, change_is_busy, topology_is_busy, port_is_busy, main_is_busy, port_sends, is_busy};
ghost use Rattle.rstp_run.specs.Rules.{wants_selection};
ghost use Rattle.std.specs.List.{list_any};

use crate::bridge_detection::{edge_guard, not_edge_guard};
use crate::information::{
    aged_guard, disabled_guard, drop_guard, enabled_guard, may_take, update_guard,
};
use crate::migration::{checked_guard, recheck_guard, selected_guard, to_rstp_guard, to_stp_guard};
use crate::port_receive::{discard_guard, receive_guard};
use crate::rule::Part;
use crate::topology_change::{
    acknowledged_guard, detected_guard, flush_guard, notified_tc_guard, notified_tcn_guard,
    propagating_guard, tc_back_guard, tc_clear_guard, tc_inactive_guard, tc_learning_guard,
};
use rstp_roles::{synced_guard, to_discarding_guard, to_forwarding_guard, to_learning_guard};
use rstp_state::PortState;

/// Returns `true` if a rule of the receive machine is enabled.
fn receive_is_busy(port: &PortState) -> bool
    ensures { result ≡ receive_is_busy port.now }
{
    discard_guard(port) || receive_guard(port)
}

/// Returns `true` if a rule of protocol migration is enabled.
fn migration_is_busy(port: &PortState) -> bool
    ensures { result ≡ migration_is_busy port.now }
{
    recheck_guard(port)
        || checked_guard(port)
        || selected_guard(port)
        || to_rstp_guard(port)
        || to_stp_guard(port)
}

/// Returns `true` if a rule of bridge detection is enabled.
fn detection_is_busy(port: &PortState) -> bool
    ensures { result ≡ detection_is_busy port.now }
{
    edge_guard(port) || not_edge_guard(port)
}

/// Returns `true` if a rule of the information machine is enabled, or a message is pending for it.
fn information_is_busy(port: &PortState) -> bool
    ensures { result ≡ information_is_busy port.now }
{
    disabled_guard(port)
        || drop_guard(port)
        || enabled_guard(port)
        || update_guard(port)
        || aged_guard(port)
        || may_take(port)
}

/// Returns `true` if the port should learn and forward, and is neither requested to come in step or
/// leave the old root, nor disputed.
fn keeps_forwarding(port: &PortState) -> bool
    ensures { result ≡ keeps_forwarding port.now }
{
    port.learn && port.forward && !port.sync && !port.re_root && !port.disputed
}

/// Returns `true` if the port isn't a designated port that keeps forwarding, or has to be marked as
/// synced: its role may have something to do.
fn role_is_busy(port: &PortState) -> bool
    ensures { result ≡ role_is_busy port.now }
{
    !port.role.is_designated()
        || !port.selected_role.is_designated()
        || !keeps_forwarding(port)
        || synced_guard(port)
}

/// Returns `true` if a rule of the state transitions is enabled.
fn state_is_busy(port: &PortState) -> bool
    ensures { result ≡ state_is_busy port.now }
{
    to_learning_guard(port) || to_forwarding_guard(port) || to_discarding_guard(port)
}

/// Returns `true` if an active port received a change or an acknowledgement, or has to pass on a
/// change; or if addresses have to be flushed.
fn change_is_busy(port: &PortState) -> bool
    ensures { result ≡ change_is_busy port.now }
{
    notified_tcn_guard(port)
        || notified_tc_guard(port)
        || propagating_guard(port)
        || acknowledged_guard(port)
        || flush_guard(port)
}

/// Returns `true` if a rule of topology change is enabled.
fn topology_is_busy(port: &PortState) -> bool
    ensures { result ≡ topology_is_busy port.now }
{
    tc_learning_guard(port)
        || detected_guard(port)
        || tc_clear_guard(port)
        || tc_inactive_guard(port)
        || tc_back_guard(port)
        || change_is_busy(port)
}

/// Returns `true` if a machine is busy at the port, apart from selection and the rules that send.
fn port_is_busy(port: &PortState) -> bool
    ensures { result ≡ port_is_busy port.now }
{
    receive_is_busy(port)
        || migration_is_busy(port)
        || detection_is_busy(port)
        || information_is_busy(port)
        || role_is_busy(port)
        || state_is_busy(port)
        || topology_is_busy(port)
}

/// Returns `true` if a port requests selection.
pub(crate) fn wants_selection(ports: &[PortState]) -> bool
    ensures { result ≡ list_any wants_selection ports.now }
{
    ports.iter().any(|port| port.reselect)
}

/// Returns `true` if a port requests selection (tested only at the first port), or a machine is
/// busy at the port at place `p`, apart from the rules that send.
fn main_is_busy(ports: &[PortState], p: usize) -> bool
    requires { p < length ports.now }
    ensures { result ≡ main_is_busy ports.now p }
{
    let port = &ports[p];
    (p == 0 && wants_selection(ports)) || port_is_busy(port)
}

/// Returns `true` if a Hello time is over at the port, or the port has something new to send.
fn port_sends(port: &PortState) -> bool
    ensures { result ≡ port_sends port.now }
{
    port.hello_when == 0 || port.new_info
}

/// Returns `true` if a rule of this part of the table may be enabled at the port at place `p`.
pub(crate) fn is_busy(part: Part, ports: &[PortState], p: usize) -> bool
    requires { p < length ports.now }
    ensures { result ≡ is_busy part ports.now p }
{
    match part {
        Part::Main => main_is_busy(ports, p),
        Part::Sends => port_sends(&ports[p]),
    }
}
