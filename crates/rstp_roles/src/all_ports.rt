//! The values that a rule of one port reads from, or sets at, all other ports.

ghost use Rattle.std.specs.Prelude.{◌≡◌, ◌<◌, length, map};
ghost use Rattle.std.specs.List.{list_all};
ghost use Rattle.rstp_roles.specs.AllPorts.{
  all_synced,
  is_in_step,
  is_not_recent,
  re_rooted,
  with_re_root,
  with_sync,
};

use crate::acting::has_role;
use rstp_state::PortState;

/// Requests the port to come in step: sync.
fn want_sync(port: &mut PortState)
    ensures { port.new ≡ with_sync port.old }
{
    port.sync = true;
}

/// Requests the port to leave the old root: reRoot.
fn want_re_root(port: &mut PortState)
    ensures { port.new ≡ with_re_root port.old }
{
    port.re_root = true;
}

/// Requests every port to come in step (17.21.14, setSyncTree).
pub(crate) fn set_sync(ports: &mut [PortState])
    ensures { ports.new ≡ map with_sync ports.old }
{
    for port in ports.iter_mut() {
        want_sync(port);
    }
}

/// Requests every port to leave the old root (17.21.15, setReRootTree).
pub(crate) fn set_re_root(ports: &mut [PortState])
    ensures { ports.new ≡ map with_re_root ports.old }
{
    for port in ports.iter_mut() {
        want_re_root(port);
    }
}

/// Returns `true` if the port has taken its role and is, unless it is the root port, synced.
fn is_in_step(port: &PortState) -> bool
    ensures { result ≡ is_in_step port.now }
{
    port.may_act() && has_role(port) && (port.role.is_root() || port.synced)
}

/// Returns `true` if every port has taken its role and is, unless it is the root port, synced
/// (17.20.3).
pub(crate) fn all_synced(ports: &[PortState]) -> bool
    ensures { result ≡ all_synced ports.now }
{
    ports.iter().all(|port| is_in_step(port))
}

/// Returns `true` if none of these ports was a root port recently.
fn are_not_recent(ports: &[PortState]) -> bool
    ensures { result ≡ list_all is_not_recent ports.now }
{
    ports.iter().all(|port| port.recent_root_while == 0)
}

/// Returns `true` if no other port was a root port recently (17.20.10).
pub(crate) fn re_rooted(ports: &[PortState], p: usize) -> bool
    requires { p < length ports.now }
    ensures { result ≡ re_rooted p ports.now }
{
    are_not_recent(&ports[..p]) && are_not_recent(&ports[p + 1..])
}
