//! Worked firings, by docs/spanning_tree_rules.md: a port's way to forwarding and back, and the
//! answer to a proposal.

use crate::{RoleRule, StateRule, fire_role, fire_state, role_is_enabled, state_is_enabled};
use rstp_state::{PortState, Role, Timing};

/// The usual times of a bridge.
const TIMING: Timing = Timing {
    hello: 2,
    hold: 6,
    max_age: 20,
    forward_delay: 15,
};

// A port that may act and has its role. It sends the rapid protocol.
fn acting(role: Role) -> PortState {
    PortState {
        role,
        selected_role: role,
        selected: true,
        send_rstp: true,
        ..PortState::default()
    }
}

// Whether this rule of the state transitions is the only one that is enabled, or none is.
fn is_next(port: &PortState, next: Option<StateRule>) -> bool {
    state_is_enabled(port, StateRule::ToLearning) == (next == Some(StateRule::ToLearning))
        && state_is_enabled(port, StateRule::ToForwarding)
            == (next == Some(StateRule::ToForwarding))
        && state_is_enabled(port, StateRule::ToDiscarding)
            == (next == Some(StateRule::ToDiscarding))
}

#[test]
fn port_learns_before_it_forwards(rt: HostRuntime) {
    let mut port = PortState {
        learn: true,
        forward: true,
        ..PortState::default()
    };
    assert!(rt; is_next(&port, Some(StateRule::ToLearning)));
    fire_state(&mut port, StateRule::ToLearning);
    assert!(rt; port.learning && !port.forwarding);
    assert!(rt; is_next(&port, Some(StateRule::ToForwarding)));
    fire_state(&mut port, StateRule::ToForwarding);
    assert!(rt; port.learning && port.forwarding);
    assert!(rt; is_next(&port, None));
}

// A port that is to learn and not to forward neither learns nor forwards at first.
#[test]
fn port_that_is_not_to_forward_discards_first(rt: HostRuntime) {
    let mut port = PortState {
        learn: true,
        learning: true,
        forwarding: true,
        ..PortState::default()
    };
    assert!(rt; is_next(&port, Some(StateRule::ToDiscarding)));
    fire_state(&mut port, StateRule::ToDiscarding);
    assert!(rt; !port.learning && !port.forwarding);
    assert!(rt; is_next(&port, Some(StateRule::ToLearning)));
}

// Fires a rule of the role transitions if it is enabled at the port at this place, 0 or 1.
fn fires(ports: &mut [PortState; 2], rule: RoleRule, place: usize) -> bool {
    if place >= 2 || !role_is_enabled(&TIMING, ports.as_slice(), rule, place) {
        return false;
    }
    fire_role(&TIMING, ports.as_mut_slice(), rule, place);
    true
}

// The designated port discards before the root port agrees. It waits for a Hello time then.
#[test]
fn root_port_agrees_once_the_other_port_discards(rt: HostRuntime) {
    let mut ports = [acting(Role::Root), acting(Role::Designated)];
    ports[0].proposed = true;
    ports[1].learn = true;
    ports[1].learning = true;
    assert!(rt; !fires(&mut ports, RoleRule::RootAgreed, 0));
    assert!(rt; fires(&mut ports, RoleRule::RootProposed, 0));
    assert!(rt; ports[0].sync && ports[1].sync && !ports[0].proposed);
    assert!(rt; !fires(&mut ports, RoleRule::Synced, 1));
    assert!(rt; fires(&mut ports, RoleRule::DesignatedDiscard, 1));
    assert!(rt; !ports[1].learn && ports[1].forward_delay_while == 2);
    fire_state(&mut ports[1], StateRule::ToDiscarding);
    assert!(rt; fires(&mut ports, RoleRule::Synced, 1));
    assert!(rt; ports[1].synced && !ports[1].sync);
    assert!(rt; fires(&mut ports, RoleRule::RootAgreed, 0));
    assert!(rt; ports[0].agree && ports[0].new_info && !ports[0].sync);
}
