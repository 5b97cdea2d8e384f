//! The rules of this crate, by name.

/// A rule of the role transitions. The order is that of the table.
#[derive(Clone, Copy, Debug, PartialEq, Eq)]
pub enum RoleRule {
    Disable,
    DisabledPort,
    Root,
    RootProposed,
    RootAgreed,
    Reroot,
    Rerooted,
    RootLearn,
    RootForward,
    Designated,
    Propose,
    Synced,
    Retired,
    DesignatedDiscard,
    DesignatedLearn,
    DesignatedForward,
    Block,
    Alternate,
    AlternateProposed,
    AlternateAgreed,
    Backup,
}

/// A rule of the state transitions. The order is that of the table.
#[derive(Clone, Copy, Debug, PartialEq, Eq)]
pub enum StateRule {
    ToLearning,
    ToForwarding,
    ToDiscarding,
}
