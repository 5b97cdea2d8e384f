//! The role transitions and the state transitions of a bridge's ports (IEEE 802.1D-2004, 17.29 and
//! 17.30, in this project's own table). Each rule is a function, and so is each rule's guard.
#![tactic(auto)]

mod acting;
mod all_ports;
mod firing;
mod role_transitions;
mod rule;
mod state_transitions;

pub use firing::{fire_role, fire_state, role_is_enabled, state_is_enabled};
pub use role_transitions::{
    alternate, alternate_agreed, alternate_agreed_guard, alternate_guard, alternate_proposed,
    alternate_proposed_guard, backup, backup_guard, block, block_guard, designated,
    designated_discard, designated_discard_guard, designated_forward, designated_forward_guard,
    designated_guard, designated_learn, designated_learn_guard, disable, disable_guard,
    disabled_port, disabled_port_guard, propose, propose_guard, reroot, reroot_guard, rerooted,
    rerooted_guard, retired, retired_guard, root, root_agreed, root_agreed_guard, root_forward,
    root_forward_guard, root_guard, root_learn, root_learn_guard, root_proposed,
    root_proposed_guard, synced, synced_guard,
};
pub use rule::{RoleRule, StateRule};
pub use state_transitions::{
    to_discarding, to_discarding_guard, to_forwarding, to_forwarding_guard, to_learning,
    to_learning_guard,
};

#[cfg(test)]
mod tests;
