//! The configuration of a bridge, and the start state of its ports.

ghost use Rattle.std.specs.Prelude.{◌≡◌, ◌≤◌, length};
ghost use Rattle.rstp_state.specs.Start.{own_times, own_vector, port_identifier, ports_from, start_port};

use crate::port::{InfoIs, Information, Migration, PortState, Role, Topology};
use crate::vector::{Times, Vector};
use arrayvec::ArrayVec;
use bpdu_wire::{BridgeId, PortId};

/// The configuration of a bridge. Times are in seconds.
#[derive(Clone, Copy, Debug, PartialEq, Eq)]
pub struct Settings {
    /// The bridge's own identifier.
    pub identifier: BridgeId,
    /// The interval at which the bridge sends.
    pub hello: u16,
    /// The greatest age of a message.
    pub max_age: u16,
    /// The time that a port waits in each state on its way to forwarding.
    pub forward_delay: u16,
    /// The number of messages that a port may send in a second.
    pub hold: u32,
}

/// The configuration of a port.
#[derive(Clone, Copy, Debug, PartialEq, Eq)]
pub struct PortSettings {
    /// The port's priority; only the top four bits count.
    pub priority: u8,
    /// The path cost.
    pub cost: u32,
    /// The administrator configured that the port leads to no bridge.
    pub admin_edge: bool,
    /// The port may detect by itself that it leads to no bridge.
    pub auto_edge: bool,
    /// At most one bridge is at the other end.
    pub point_to_point: bool,
}

impl Settings {
    /// Returns the times of the bridge as root: message age 0, and the configured times.
    pub(crate) fn own_times(&self) -> Times
        ensures { result ≡ own_times self.now }
    {
        Times {
            message_age: 0,
            max_age: self.max_age,
            hello: self.hello,
            forward_delay: self.forward_delay,
        }
    }

    /// Returns the vector that the bridge would send at the port as root.
    pub(crate) fn own_vector(&self, port: PortId) -> Vector
        ensures { result ≡ own_vector self.now port }
    {
        Vector {
            root: self.identifier,
            cost: 0,
            bridge: self.identifier,
            port,
        }
    }
}

/// Returns the identifier of the port with this number.
fn port_identifier(priority: u8, number: u8) -> PortId
    ensures { result ≡ port_identifier priority number }
{
    PortId::new(u16::from(priority / 16) * 0x1000 + u16::from(number))
}

/// Returns a port before its first event: not enabled, and with nothing to do.
pub(crate) fn start_port(settings: &Settings, port: &PortSettings, number: u8) -> PortState
    ensures { result ≡ start_port settings.now port.now number }
{
    let identifier = port_identifier(port.priority, number);
    let port_priority = settings.own_vector(identifier);
    let designated_priority = port_priority;
    let times = settings.own_times();
    PortState {
        identifier,
        cost: port.cost,
        admin_edge: port.admin_edge,
        auto_edge: port.auto_edge,
        point_to_point: port.point_to_point,
        enabled: false,
        migration: Migration::Checking,
        information: Information::Disabled,
        topology: Topology::Inactive,
        hello_when: u32::from(settings.hello),
        topology_change_while: 0,
        forward_delay_while: u32::from(settings.max_age),
        received_info_while: 0,
        recent_root_while: 0,
        recent_backup_while: 0,
        migration_delay_while: 3,
        edge_delay_while: 3,
        transmit_count: 0,
        received_bpdu: false,
        received_rstp: false,
        received_stp: false,
        received_message: false,
        check_migration: false,
        send_rstp: true,
        oper_edge: port.admin_edge,
        proposing: false,
        proposed: false,
        agree: false,
        agreed: false,
        synced: true,
        sync: false,
        re_root: false,
        selected: true,
        reselect: false,
        update_info: false,
        new_info: true,
        disputed: false,
        learn: false,
        forward: false,
        learning: false,
        forwarding: false,
        received_topology_change: false,
        received_acknowledgement: false,
        received_notification: false,
        propagate_topology_change: false,
        acknowledge_topology_change: false,
        flush: false,
        info_is: InfoIs::Disabled,
        role: Role::Disabled,
        selected_role: Role::Disabled,
        port_priority,
        port_times: times,
        designated_priority,
        designated_times: times,
        message: None,
        slot: None,
    }
}

/// Sets each port to its start state, the first as port 1.
fn set_ports(settings: &Settings, ports: &[PortSettings], started: &mut [PortState])
    requires few { length ports.now ≤ 64 }
    requires same { length started.old ≡ length ports.now }
    ensures { started.new ≡ ports_from 1 settings.now ports.now }
{
    for (i, port) in ports.iter().enumerate() {
        started[i] = start_port(settings, port, (i + 1) as u8);
    }
}

/// Returns the ports before their first event, numbered from 1.
pub fn start_ports(settings: &Settings, ports: &[PortSettings]) -> ArrayVec<PortState, 64>
    requires { length ports.now ≤ 64 }
    ensures value { result.items ≡ ports_from 1 settings.now ports.now }
    ensures count { length result.items ≡ length ports.now }
{
    let mut started = ArrayVec::from_array_in((), [PortState::default(); 64]);
    started.truncate(ports.len());
    set_ports(settings, ports, &mut started);
    started
}
