//! Conditions on a port for the role transitions (17.29): the role in which it acts, and the steps
//! that it may or must take.

ghost use Rattle.std.specs.Prelude.{◌≡◌};
ghost use Rattle.rstp_state.specs.Port.{edge_delay, has_role, is_backup, is_blocked, is_discarding};
ghost use Rattle.rstp_roles.specs.RoleTransitions.{
  acts_as_disabled,
  acts_as_root,
  acts_as_designated,
  acts_as_blocked,
  acts_as_backup,
  is_unrested,
  may_agree,
  may_go_on_as_root,
  may_be_synced,
  must_discard,
  may_go_on,
};

use rstp_state::{PortState, Role, Timing};

/// Returns `true` if the role is Backup.
fn is_backup(role: Role) -> bool
    ensures { result ≡ is_backup role }
{
    matches!(role, Role::Backup)
}

/// Returns `true` if the role is Alternate or Backup.
pub(crate) fn is_blocked(role: Role) -> bool
    ensures { result ≡ is_blocked role }
{
    matches!(role, Role::Alternate | Role::Backup)
}

/// Returns `true` if the port has taken its selected role.
pub(crate) fn has_role(port: &PortState) -> bool
    ensures { result ≡ has_role port.now }
{
    port.role == port.selected_role
}

/// Returns `true` if the port neither learns nor forwards.
pub(crate) fn is_discarding(port: &PortState) -> bool
    ensures { result ≡ is_discarding port.now }
{
    !port.learning && !port.forwarding
}

/// Returns the time in seconds that the port waits before it may become an edge (17.20.4).
pub(crate) fn edge_delay(port: &PortState, timing: &Timing) -> u32
    ensures { result ≡ edge_delay timing.now port.now }
{
    if port.point_to_point {
        3
    } else {
        u32::from(timing.max_age)
    }
}

/// Returns `true` if the port may act, and its role and selected role are Disabled.
pub(crate) fn acts_as_disabled(port: &PortState) -> bool
    ensures { result ≡ acts_as_disabled port.now }
{
    port.may_act() && port.role.is_disabled() && port.selected_role.is_disabled()
}

/// Returns `true` if the port may act, and its role and selected role are Root.
pub(crate) fn acts_as_root(port: &PortState) -> bool
    ensures { result ≡ acts_as_root port.now }
{
    port.may_act() && port.role.is_root() && port.selected_role.is_root()
}

/// Returns `true` if the port may act, and its role and selected role are Designated.
pub(crate) fn acts_as_designated(port: &PortState) -> bool
    ensures { result ≡ acts_as_designated port.now }
{
    port.may_act() && port.role.is_designated() && port.selected_role.is_designated()
}

/// Returns `true` if the port may act, and its role is the selected role, Alternate or Backup.
pub(crate) fn acts_as_blocked(port: &PortState) -> bool
    ensures { result ≡ acts_as_blocked port.now }
{
    port.may_act() && has_role(port) && is_blocked(port.role)
}

/// Returns `true` if the port may act, and its role and selected role are Backup.
pub(crate) fn acts_as_backup(port: &PortState) -> bool
    ensures { result ≡ acts_as_backup port.now }
{
    port.may_act() && is_backup(port.role) && is_backup(port.selected_role)
}

/// Returns `true` if a discarding port still has something to reset: a forward delay timer that
/// isn't at this delay, a recent root timer that is running, a request to sync or to leave the old
/// root, or that it isn't synced.
pub(crate) fn is_unrested(port: &PortState, delay: u32) -> bool
    ensures { result ≡ is_unrested port.now delay }
{
    port.forward_delay_while != delay
        || port.sync
        || port.re_root
        || !port.synced
        || port.recent_root_while != 0
}

/// Returns `true` if the port has to agree: all ports are synced and it hasn't agreed, or it has
/// agreed and received a new proposal.
pub(crate) fn may_agree(port: &PortState, all_synced: bool) -> bool
    ensures { result ≡ may_agree port.now all_synced }
{
    (all_synced && !port.agree) || (port.proposed && port.agree)
}

/// Returns `true` if the root port has waited long enough, or needn't wait: no other port was a
/// root port recently, and this port was not a backup port recently.
pub(crate) fn may_go_on_as_root(port: &PortState, re_rooted: bool) -> bool
    ensures { result ≡ may_go_on_as_root port.now re_rooted }
{
    port.forward_delay_while == 0 || (re_rooted && port.recent_backup_while == 0)
}

/// Returns `true` if a port that isn't synced can become synced: it discards, the other end agrees,
/// or it is an edge.
pub(crate) fn may_be_synced(port: &PortState) -> bool
    ensures { result ≡ may_be_synced port.now }
{
    !port.synced && (is_discarding(port) || port.agreed || port.oper_edge)
}

/// Returns `true` if the port, unless it is an edge, has to return to discarding: to sync, to leave
/// the old root, or because it is disputed.
pub(crate) fn must_discard(port: &PortState) -> bool
    ensures { result ≡ must_discard port.now }
{
    (port.sync && !port.synced) || (port.re_root && port.recent_root_while != 0) || port.disputed
}

/// Returns `true` if a designated port may take its next step to forwarding.
pub(crate) fn may_go_on(port: &PortState) -> bool
    ensures { result ≡ may_go_on port.now }
{
    !port.sync
        && (port.forward_delay_while == 0 || port.agreed || port.oper_edge)
        && (port.recent_root_while == 0 || !port.re_root)
}
