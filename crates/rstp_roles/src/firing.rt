//! The rules by name: the guard of each rule at a port, and its firing.

ghost use Rattle.std.specs.Prelude.{◌≡◌, ◌<◌, length};
ghost use Rattle.rstp_state.specs.Port.{test_at};
ghost use Rattle.rstp_roles.specs.Rules.{role_asks, role_does, state_asks, state_does};

use crate::all_ports::{all_synced, re_rooted};
use crate::role_transitions::{
    alternate, alternate_agreed, alternate_agreed_guard, alternate_guard, alternate_proposed,
    alternate_proposed_guard, backup, backup_guard, block, block_guard, designated,
    designated_discard, designated_discard_guard, designated_forward, designated_forward_guard,
    designated_guard, designated_learn, designated_learn_guard, disable, disable_guard,
    disabled_port, disabled_port_guard, propose, propose_guard, reroot, reroot_guard, rerooted,
    rerooted_guard, retired, retired_guard, root, root_agreed, root_agreed_guard, root_forward,
    root_forward_guard, root_guard, root_learn, root_learn_guard, root_proposed,
    root_proposed_guard, synced, synced_guard,
};
use crate::rule::{RoleRule, StateRule};
use crate::state_transitions::{
    to_discarding, to_discarding_guard, to_forwarding, to_forwarding_guard, to_learning,
    to_learning_guard,
};
use rstp_state::{PortState, Timing};

/// Returns `true` if the rule's guard holds at the port at place `p`.
pub fn role_is_enabled(timing: &Timing, ports: &[PortState], rule: RoleRule, p: usize) -> bool
    requires { p < length ports.now }
    ensures { result ≡ test_at p (role_asks rule timing.now ports.now p) ports.now }
{
    let port = &ports[p];
    match rule {
        RoleRule::Disable => disable_guard(port),
        RoleRule::DisabledPort => disabled_port_guard(timing, port),
        RoleRule::Root => root_guard(timing, port),
        RoleRule::RootProposed => root_proposed_guard(port),
        RoleRule::RootAgreed => root_agreed_guard(port, all_synced(ports)),
        RoleRule::Reroot => reroot_guard(port),
        RoleRule::Rerooted => rerooted_guard(port),
        RoleRule::RootLearn => root_learn_guard(port, re_rooted(ports, p)),
        RoleRule::RootForward => root_forward_guard(port, re_rooted(ports, p)),
        RoleRule::Designated => designated_guard(port),
        RoleRule::Propose => propose_guard(port),
        RoleRule::Synced => synced_guard(port),
        RoleRule::Retired => retired_guard(port),
        RoleRule::DesignatedDiscard => designated_discard_guard(port),
        RoleRule::DesignatedLearn => designated_learn_guard(port),
        RoleRule::DesignatedForward => designated_forward_guard(port),
        RoleRule::Block => block_guard(port),
        RoleRule::Alternate => alternate_guard(timing, port),
        RoleRule::AlternateProposed => alternate_proposed_guard(port),
        RoleRule::AlternateAgreed => alternate_agreed_guard(port, all_synced(ports)),
        RoleRule::Backup => backup_guard(timing, port),
    }
}

/// Fires the rule at the port at place `p`.
pub fn fire_role(timing: &Timing, ports: &mut [PortState], rule: RoleRule, p: usize)
    requires { p < length ports.old }
    ensures { ports.new ≡ role_does rule timing.now ports.old p }
{
    match rule {
        RoleRule::Disable => disable(&mut ports[p]),
        RoleRule::DisabledPort => disabled_port(timing, &mut ports[p]),
        RoleRule::Root => root(timing, &mut ports[p]),
        RoleRule::RootProposed => root_proposed(ports, p),
        RoleRule::RootAgreed => root_agreed(&mut ports[p]),
        RoleRule::Reroot => reroot(ports),
        RoleRule::Rerooted => rerooted(&mut ports[p]),
        RoleRule::RootLearn => root_learn(timing, &mut ports[p]),
        RoleRule::RootForward => root_forward(&mut ports[p]),
        RoleRule::Designated => designated(&mut ports[p]),
        RoleRule::Propose => propose(timing, &mut ports[p]),
        RoleRule::Synced => synced(&mut ports[p]),
        RoleRule::Retired => retired(&mut ports[p]),
        RoleRule::DesignatedDiscard => designated_discard(timing, &mut ports[p]),
        RoleRule::DesignatedLearn => designated_learn(timing, &mut ports[p]),
        RoleRule::DesignatedForward => designated_forward(&mut ports[p]),
        RoleRule::Block => block(&mut ports[p]),
        RoleRule::Alternate => alternate(timing, &mut ports[p]),
        RoleRule::AlternateProposed => alternate_proposed(ports, p),
        RoleRule::AlternateAgreed => alternate_agreed(&mut ports[p]),
        RoleRule::Backup => backup(timing, &mut ports[p]),
    }
}

/// Returns `true` if the rule's guard holds at the port.
pub fn state_is_enabled(port: &PortState, rule: StateRule) -> bool
    ensures { result ≡ state_asks rule port.now }
{
    match rule {
        StateRule::ToLearning => to_learning_guard(port),
        StateRule::ToForwarding => to_forwarding_guard(port),
        StateRule::ToDiscarding => to_discarding_guard(port),
    }
}

/// Fires the rule at the port.
pub fn fire_state(port: &mut PortState, rule: StateRule)
    ensures { port.new ≡ state_does rule port.old }
{
    match rule {
        StateRule::ToLearning => to_learning(port),
        StateRule::ToForwarding => to_forwarding(port),
        StateRule::ToDiscarding => to_discarding(port),
    }
}
