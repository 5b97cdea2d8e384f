//! The state of one port: its settings, timers, flags, machine states, vectors and message.

ghost use Rattle.std.specs.Prelude.{◌≡◌};
ghost use Rattle.rstp_state.specs.Port.{has_flag};

use crate::vector::{Times, Vector};
use bpdu_wire::{Bpdu, PortId};

/// The role of a port in the spanning tree (IEEE 802.1D-2004, 17.7).
#[derive(Clone, Copy, Debug, Default, PartialEq, Eq)]
pub enum Role {
    #[default]
    Disabled,
    Root,
    Designated,
    Alternate,
    Backup,
}

/// The state of the port's protocol migration machine (17.24).
#[derive(Clone, Copy, Debug, Default, PartialEq, Eq)]
pub enum Migration {
    #[default]
    Checking,
    Selecting,
    Sensing,
}

/// The state of the port's information machine (17.27).
#[derive(Clone, Copy, Debug, Default, PartialEq, Eq)]
pub enum Information {
    #[default]
    Disabled,
    Aged,
    Current,
}

/// The state of the port's topology change machine (17.31).
#[derive(Clone, Copy, Debug, Default, PartialEq, Eq)]
pub enum Topology {
    #[default]
    Inactive,
    Learning,
    Active,
}

/// The source of the port's vector and times (17.19.10).
#[derive(Clone, Copy, Debug, Default, PartialEq, Eq)]
pub enum InfoIs {
    /// The port is not enabled.
    #[default]
    Disabled,
    /// The received information is too old.
    Aged,
    /// The vector and times are the port's own.
    Mine,
    /// The vector and times were received from another bridge, or from another port of this bridge.
    Received,
}

/// The whole state of a port. Each field is named after a variable of IEEE 802.1D-2004, clause 17,
/// in whole words; its comment gives the standard's name and section. Timers count seconds down to
/// 0. The default is a port that doesn't exist: it fills the unused places of a list.
#[derive(Clone, Copy, Default)]
pub struct PortState {
    /// The priority in the top four bits, the port number in the low twelve: portId (17.19.19).
    pub identifier: PortId,
    /// The cost that the port adds to the received cost: PortPathCost (17.19.20).
    pub cost: u32,
    /// The administrator configured that the port leads to no bridge: AdminEdge (17.13).
    pub admin_edge: bool,
    /// The port may detect by itself that it leads to no bridge: AutoEdge (17.13).
    pub auto_edge: bool,
    /// At most one bridge is at the other end: operPointToPointMAC (6.4.3).
    pub point_to_point: bool,
    /// The port is up: portEnabled (17.19.18).
    pub enabled: bool,
    /// The state of the protocol migration machine (17.24).
    pub migration: Migration,
    /// The state of the information machine (17.27).
    pub information: Information,
    /// The state of the topology change machine (17.31).
    pub topology: Topology,
    /// The time until the next periodic message: helloWhen (17.17.3).
    pub hello_when: u32,
    /// The time for which the port still sends a topology change: tcWhile (17.17.8).
    pub topology_change_while: u32,
    /// The time until the port may take its next step to forwarding: fdWhile (17.17.2).
    pub forward_delay_while: u32,
    /// The time for which the port still keeps received information: rcvdInfoWhile (17.17.6).
    pub received_info_while: u32,
    /// The time for which the port still counts as a recent root port: rrWhile (17.17.7).
    pub recent_root_while: u32,
    /// The time for which the port still counts as a recent backup port: rbWhile (17.17.5).
    pub recent_backup_while: u32,
    /// The time until the protocol may change again: mdelayWhile (17.17.4).
    pub migration_delay_while: u32,
    /// The time until the port may become an edge, if it receives from no bridge: edgeDelayWhile
    /// (17.17.1).
    pub edge_delay_while: u32,
    /// The number of recently sent messages, lowered by one each second: txCount (17.19.44).
    pub transmit_count: u32,
    /// A message arrived: rcvdBPDU (17.19.25).
    pub received_bpdu: bool,
    /// A message of the rapid protocol arrived: rcvdRSTP (17.19.28).
    pub received_rstp: bool,
    /// A message of the older protocol arrived: rcvdSTP (17.19.29).
    pub received_stp: bool,
    /// A message is pending for the information machine: rcvdMsg (17.19.27).
    pub received_message: bool,
    /// The port has to check migration again: mcheck (17.19.13).
    pub check_migration: bool,
    /// The port sends the rapid protocol, not the older one: sendRSTP (17.19.38).
    pub send_rstp: bool,
    /// The port leads to no bridge: operEdge (17.19.17).
    pub oper_edge: bool,
    /// The port requests an agreement: proposing (17.19.24).
    pub proposing: bool,
    /// The port received a request for an agreement: proposed (17.19.23).
    pub proposed: bool,
    /// The port agrees: agree (17.19.2).
    pub agree: bool,
    /// The other end agrees: agreed (17.19.3).
    pub agreed: bool,
    /// The port is in step with the root's information: synced (17.19.40).
    pub synced: bool,
    /// The port has to come in step: sync (17.19.39).
    pub sync: bool,
    /// The port has to leave the old root: reRoot (17.19.33).
    pub re_root: bool,
    /// The role is selected: selected (17.19.36).
    pub selected: bool,
    /// Selection has to run again: reselect (17.19.34).
    pub reselect: bool,
    /// The port has yet to take over its designated vector and times: updtInfo (17.19.45).
    pub update_info: bool,
    /// The port has something new to send: newInfo (17.19.16).
    pub new_info: bool,
    /// A worse designated port on the segment learns: disputed (17.19.6).
    pub disputed: bool,
    /// The port should learn: learn (17.19.11).
    pub learn: bool,
    /// The port should forward: forward (17.19.8).
    pub forward: bool,
    /// The port learns: learning (17.19.12).
    pub learning: bool,
    /// The port forwards: forwarding (17.19.9).
    pub forwarding: bool,
    /// A message announced a topology change: rcvdTc (17.19.30).
    pub received_topology_change: bool,
    /// A message acknowledged a topology change: rcvdTcAck (17.19.31).
    pub received_acknowledgement: bool,
    /// A notification of the older protocol arrived: rcvdTcn (17.19.32).
    pub received_notification: bool,
    /// The port has to pass on a topology change: tcProp (17.19.42).
    pub propagate_topology_change: bool,
    /// The port has to acknowledge a topology change: tcAck (17.19.41).
    pub acknowledge_topology_change: bool,
    /// The addresses learnt at the port have to be flushed: fdbFlush (17.19.7).
    pub flush: bool,
    /// The source of the port's vector and times: infoIs (17.19.10).
    pub info_is: InfoIs,
    /// The current role: role (17.19.35).
    pub role: Role,
    /// The selected role, which the port has to take: selectedRole (17.19.37).
    pub selected_role: Role,
    /// The best vector that the port knows on its segment: portPriority (17.19.21).
    pub port_priority: Vector,
    /// The times of that vector: portTimes (17.19.22).
    pub port_times: Times,
    /// The vector that the bridge sends at this port: designatedPriority (17.19.4).
    pub designated_priority: Vector,
    /// The times that the bridge sends at this port: designatedTimes (17.19.5).
    pub designated_times: Times,
    /// The last message that was stored: msgPriority and msgTimes (17.19.14, 17.19.15) are its
    /// vector and times.
    pub message: Option<Bpdu>,
    /// The message that a transmit rule sent at this event; the standard has no variable for it.
    pub slot: Option<Bpdu>,
}

/// The values of the bridge that the rules of a port read: the bridge's own Hello time and hold
/// count, and the root's max age and forward delay. Times are in seconds.
#[derive(Clone, Copy, Debug, PartialEq, Eq)]
pub struct Timing {
    pub hello: u16,
    pub hold: u32,
    pub max_age: u16,
    pub forward_delay: u16,
}

impl Role {
    ghost use Rattle.rstp_state.specs.Port.{is_disabled, is_root, is_designated};

    /// Returns `true` if the role is Disabled.
    pub fn is_disabled(self) -> bool
        ensures { result ≡ is_disabled self }
    {
        matches!(self, Role::Disabled)
    }

    /// Returns `true` if the role is Root.
    pub fn is_root(self) -> bool
        ensures { result ≡ is_root self }
    {
        matches!(self, Role::Root)
    }

    /// Returns `true` if the role is Designated.
    pub fn is_designated(self) -> bool
        ensures { result ≡ is_designated self }
    {
        matches!(self, Role::Designated)
    }
}

impl InfoIs {
    ghost use Rattle.rstp_state.specs.Port.{is_received};

    /// Returns `true` if the information was received.
    pub fn is_received(self) -> bool
        ensures { result ≡ is_received self }
    {
        matches!(self, InfoIs::Received)
    }
}

impl PortState {
    ghost use Rattle.rstp_state.specs.Port.{
      may_act,
      forward_delay,
    };

    /// Returns `true` if the roles are selected and no update is pending.
    pub fn may_act(&self) -> bool
        ensures { result ≡ may_act self.now }
    {
        self.selected && !self.update_info
    }

    /// Returns the time in seconds that the port waits in each state on its way to forwarding: a
    /// Hello time with the rapid protocol (17.20.5).
    pub fn forward_delay(&self, timing: &Timing) -> u32
        ensures { result ≡ forward_delay timing.now self.now }
    {
        u32::from(if self.send_rstp {
            timing.hello
        } else {
            timing.forward_delay
        })
    }
}

/// Returns `true` if the flags of a message include one of these flags.
pub fn has_flag(flags: u8, wanted: u8) -> bool
    ensures { result ≡ has_flag flags wanted }
{
    flags & wanted != 0
}
