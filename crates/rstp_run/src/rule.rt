//! The rules by name, and the order in which the sweep tries them.

ghost use Rattle.std.specs.Prelude.{◌≡◌};

use rstp_roles::{RoleRule, StateRule};

/// A rule of the receive machine.
#[derive(Clone, Copy, Debug, PartialEq, Eq)]
pub enum ReceiveRule {
    Discard,
    Receive,
}

/// A rule of the protocol migration machine.
#[derive(Clone, Copy, Debug, PartialEq, Eq)]
pub enum MigrationRule {
    Recheck,
    Checked,
    Selected,
    ToRstp,
    ToStp,
}

/// A rule of the bridge detection machine.
#[derive(Clone, Copy, Debug, PartialEq, Eq)]
pub enum DetectionRule {
    Edge,
    NotEdge,
}

/// A rule of the information machine.
#[derive(Clone, Copy, Debug, PartialEq, Eq)]
pub enum InformationRule {
    Disabled,
    Drop,
    Enabled,
    Update,
    Aged,
    Superior,
    Repeated,
    Inferior,
    NotDesignated,
    Other,
}

/// A rule of the topology change machine.
#[derive(Clone, Copy, Debug, PartialEq, Eq)]
pub enum TopologyRule {
    TcLearning,
    Detected,
    TcClear,
    TcInactive,
    TcBack,
    NotifiedTcn,
    NotifiedTc,
    Propagating,
    Acknowledged,
    Flush,
}

/// A rule of the transmit machine.
#[derive(Clone, Copy, Debug, PartialEq, Eq)]
pub enum TransmitRule {
    Periodic,
    SendConfig,
    SendTcn,
    SendRst,
}

/// A rule of the table.
#[derive(Clone, Copy, Debug, PartialEq, Eq)]
pub enum Rule {
    /// Selects the root and the roles again. The sweep tests its guard only at the first port.
    Select,
    Receive(ReceiveRule),
    Migration(MigrationRule),
    Detection(DetectionRule),
    Information(InformationRule),
    Role(RoleRule),
    State(StateRule),
    Topology(TopologyRule),
    Transmit(TransmitRule),
}

/// The two parts of the table: the rules that send come after all other rules.
#[derive(Clone, Copy, Debug, PartialEq, Eq)]
pub(crate) enum Part {
    Main,
    Sends,
}

impl Rule {
    ghost use Rattle.rstp_run.specs.Runs.{is_flush};

    /// Returns `true` for the rule that flushes the addresses learnt at a port.
    pub(crate) fn is_flush(self) -> bool
        ensures { result ≡ is_flush self }
    {
        matches!(self, Rule::Topology(TopologyRule::Flush))
    }
}

/// All rules except those that send, in their order.
pub const MAIN: [Rule; 54] = [
    Rule::Select,
    Rule::Receive(ReceiveRule::Discard),
    Rule::Receive(ReceiveRule::Receive),
    Rule::Migration(MigrationRule::Recheck),
    Rule::Migration(MigrationRule::Checked),
    Rule::Migration(MigrationRule::Selected),
    Rule::Migration(MigrationRule::ToRstp),
    Rule::Migration(MigrationRule::ToStp),
    Rule::Detection(DetectionRule::Edge),
    Rule::Detection(DetectionRule::NotEdge),
    Rule::Information(InformationRule::Disabled),
    Rule::Information(InformationRule::Drop),
    Rule::Information(InformationRule::Enabled),
    Rule::Information(InformationRule::Update),
    Rule::Information(InformationRule::Aged),
    Rule::Information(InformationRule::Superior),
    Rule::Information(InformationRule::Repeated),
    Rule::Information(InformationRule::Inferior),
    Rule::Information(InformationRule::NotDesignated),
    Rule::Information(InformationRule::Other),
    Rule::Role(RoleRule::Disable),
    Rule::Role(RoleRule::DisabledPort),
    Rule::Role(RoleRule::Root),
    Rule::Role(RoleRule::RootProposed),
    Rule::Role(RoleRule::RootAgreed),
    Rule::Role(RoleRule::Reroot),
    Rule::Role(RoleRule::Rerooted),
    Rule::Role(RoleRule::RootLearn),
    Rule::Role(RoleRule::RootForward),
    Rule::Role(RoleRule::Designated),
    Rule::Role(RoleRule::Propose),
    Rule::Role(RoleRule::Synced),
    Rule::Role(RoleRule::Retired),
    Rule::Role(RoleRule::DesignatedDiscard),
    Rule::Role(RoleRule::DesignatedLearn),
    Rule::Role(RoleRule::DesignatedForward),
    Rule::Role(RoleRule::Block),
    Rule::Role(RoleRule::Alternate),
    Rule::Role(RoleRule::AlternateProposed),
    Rule::Role(RoleRule::AlternateAgreed),
    Rule::Role(RoleRule::Backup),
    Rule::State(StateRule::ToLearning),
    Rule::State(StateRule::ToForwarding),
    Rule::State(StateRule::ToDiscarding),
    Rule::Topology(TopologyRule::TcLearning),
    Rule::Topology(TopologyRule::Detected),
    Rule::Topology(TopologyRule::TcClear),
    Rule::Topology(TopologyRule::TcInactive),
    Rule::Topology(TopologyRule::TcBack),
    Rule::Topology(TopologyRule::NotifiedTcn),
    Rule::Topology(TopologyRule::NotifiedTc),
    Rule::Topology(TopologyRule::Propagating),
    Rule::Topology(TopologyRule::Acknowledged),
    Rule::Topology(TopologyRule::Flush),
];

/// The rules that send.
pub const SENDS: [Rule; 4] = [
    Rule::Transmit(TransmitRule::Periodic),
    Rule::Transmit(TransmitRule::SendConfig),
    Rule::Transmit(TransmitRule::SendTcn),
    Rule::Transmit(TransmitRule::SendRst),
];
