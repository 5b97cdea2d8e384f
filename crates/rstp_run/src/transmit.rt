//! The transmit rules (17.26): which messages a port sends, and when.

ghost use Rattle.std.specs.Prelude.{◌≡◌, ◌<◌, ◌≤◌};
ghost use Rattle.rstp_run.specs.Transmit.{
  field_of,
  message_with,
  flag_if,
  config_flags,
  role_flags,
  rst_flags,
  may_send,
  is_ready,
  sending,
};
ghost use Rattle.rstp_run.specs.Transmit.{
  periodic_guard,
  periodic_effect,
  send_config_guard,
  send_config_effect,
  send_tcn_guard,
  send_tcn_effect,
  send_rst_guard,
  send_rst_effect,
};

use bpdu_wire::{
    AGREEMENT, ALTERNATE_OR_BACKUP_ROLE, Bpdu, CHANGE_ACKNOWLEDGEMENT, DESIGNATED_ROLE, FORWARDING,
    LEARNING, MOST_TIME, Message, PROPOSAL, ROLE_BITS, ROOT_ROLE, TIME_UNITS, TOPOLOGY_CHANGE,
};
use rstp_state::{PortState, Role, Timing};

/// Returns seconds in the units of a message. A value that doesn't fit the field becomes the
/// field's greatest number.
fn field_of(seconds: u16) -> u16
    ensures { result ≡ field_of seconds }
{
    if seconds < TIME_UNITS {
        seconds * TIME_UNITS
    } else {
        MOST_TIME
    }
}

/// Returns a message with the port's designated vector and times, and these flags.
fn message_with(flags: u8, port: &PortState) -> Message
    ensures { result ≡ message_with flags port.now }
{
    Message {
        flags,
        root: port.designated_priority.root,
        cost: port.designated_priority.cost,
        bridge: port.designated_priority.bridge,
        port: port.designated_priority.port,
        message_age: field_of(port.designated_times.message_age),
        max_age: field_of(port.designated_times.max_age),
        hello: field_of(port.designated_times.hello),
        forward_delay: field_of(port.designated_times.forward_delay),
    }
}

/// Returns the flag if it is wanted, else 0.
fn flag_if(wanted: bool, flag: u8) -> u8
    ensures value { result ≡ flag_if wanted flag }
    ensures small { result ≤ flag }
{
    if wanted { flag } else { 0 }
}

/// Returns the flags of a message of the older protocol.
fn config_flags(port: &PortState) -> u8
    ensures { result ≡ config_flags port.now }
{
    flag_if(port.topology_change_while != 0, TOPOLOGY_CHANGE)
        + flag_if(port.acknowledge_topology_change, CHANGE_ACKNOWLEDGEMENT)
}

/// Returns the role as two bits of the flags (9.3.3).
fn role_flags(role: Role) -> u8
    ensures value { result ≡ role_flags role }
    ensures small { result ≤ ROLE_BITS }
{
    match role {
        Role::Root => ROOT_ROLE,
        Role::Designated => DESIGNATED_ROLE,
        _ => ALTERNATE_OR_BACKUP_ROLE,
    }
}

/// Returns the flags of a message of the rapid protocol.
fn rst_flags(port: &PortState) -> u8
    ensures { result ≡ rst_flags port.now }
{
    flag_if(port.topology_change_while != 0, TOPOLOGY_CHANGE)
        + flag_if(port.proposing, PROPOSAL)
        + role_flags(port.role)
        + flag_if(port.learning, LEARNING)
        + flag_if(port.forwarding, FORWARDING)
        + flag_if(port.agree, AGREEMENT)
}

/// Returns `true` if the port may act, has something new to send before its next Hello time, and
/// has sent fewer messages than the hold count.
fn may_send(timing: &Timing, port: &PortState) -> bool
    ensures { result ≡ may_send timing.now port.now }
{
    port.may_act() && port.new_info && port.hello_when != 0 && port.transmit_count < timing.hold
}

/// Returns `true` if the port may send, has not sent at this event, is enabled, and its role isn't
/// Disabled.
fn is_ready(timing: &Timing, port: &PortState) -> bool
    ensures { result ≡ is_ready timing.now port.now }
{
    may_send(timing, port) && port.slot.is_none() && port.enabled && !port.role.is_disabled()
}

/// Puts a message into the slot, and counts it.
fn send(timing: &Timing, bpdu: Bpdu, port: &mut PortState)
    requires { port.old.transmit_count < timing.now.hold }
    ensures { port.new ≡ sending timing.now bpdu port.old }
{
    prove!(port.transmit_count < timing.hold);
    port.slot = Some(bpdu);
    port.new_info = false;
    port.transmit_count += 1;
    port.hello_when = u32::from(timing.hello);
}

/// Returns `true` if a Hello time is over.
pub(crate) fn periodic_guard(port: &PortState) -> bool
    ensures { result ≡ periodic_guard port.now }
{
    port.may_act() && port.hello_when == 0
}

/// Requests the periodic message after a Hello time: a designated port repeats its information, and
/// a root port its topology change.
pub(crate) fn periodic(timing: &Timing, port: &mut PortState)
    ensures { port.new ≡ periodic_effect timing.now port.old }
{
    port.hello_when = u32::from(timing.hello);
    port.new_info = port.new_info
        || port.role.is_designated()
        || (port.role.is_root() && port.topology_change_while != 0);
}

/// Returns `true` if a designated port has to send by the older protocol.
pub(crate) fn send_config_guard(timing: &Timing, port: &PortState) -> bool
    ensures { result ≡ send_config_guard timing.now port.now }
{
    is_ready(timing, port) && !port.send_rstp && port.role.is_designated()
}

/// Sends a message of the older protocol from a designated port.
pub(crate) fn send_config(timing: &Timing, port: &mut PortState)
    requires { port.old.transmit_count < timing.now.hold }
    ensures { port.new ≡ send_config_effect timing.now port.old }
{
    let bpdu = Bpdu::Config(message_with(config_flags(port), port));
    send(timing, bpdu, port);
    port.acknowledge_topology_change = false;
}

/// Returns `true` if the root port has to announce a change by the older protocol.
pub(crate) fn send_tcn_guard(timing: &Timing, port: &PortState) -> bool
    ensures { result ≡ send_tcn_guard timing.now port.now }
{
    is_ready(timing, port) && !port.send_rstp && port.role.is_root()
}

/// Announces a change from the root port to a bridge of the older protocol.
pub(crate) fn send_tcn(timing: &Timing, port: &mut PortState)
    requires { port.old.transmit_count < timing.now.hold }
    ensures { port.new ≡ send_tcn_effect timing.now port.old }
{
    send(timing, Bpdu::Tcn, port);
}

/// Returns `true` if the port has to send by the rapid protocol.
pub(crate) fn send_rst_guard(timing: &Timing, port: &PortState) -> bool
    ensures { result ≡ send_rst_guard timing.now port.now }
{
    is_ready(timing, port) && port.send_rstp
}

/// Sends a message of the rapid protocol.
pub(crate) fn send_rst(timing: &Timing, port: &mut PortState)
    requires { port.old.transmit_count < timing.now.hold }
    ensures { port.new ≡ send_rst_effect timing.now port.old }
{
    let bpdu = Bpdu::Rst(message_with(rst_flags(port), port));
    send(timing, bpdu, port);
    port.acknowledge_topology_change = false;
}
