//! The role transitions: a port takes its selected role and acts in it (17.29). Each rule has a
//! guard and an effect; the rules are in the table's order.

ghost use Rattle.std.specs.Prelude.{◌≡◌, ◌<◌, length};
ghost use Rattle.rstp_roles.specs.RoleTransitions.{
  disable_guard,
  disable_effect,
  disabled_port_guard,
  disabled_port_effect,
  root_guard,
  root_effect,
  root_proposed_guard,
  root_proposed_effect,
  root_agreed_guard,
  root_agreed_effect,
  reroot_guard,
  reroot_effect,
  rerooted_guard,
  rerooted_effect,
  root_learn_guard,
  root_learn_effect,
  root_forward_guard,
  root_forward_effect,
  designated_guard,
  designated_effect,
  propose_guard,
  propose_effect,
  synced_guard,
  synced_effect,
  retired_guard,
  retired_effect,
  designated_discard_guard,
  designated_discard_effect,
  designated_learn_guard,
  designated_learn_effect,
  designated_forward_guard,
  designated_forward_effect,
  block_guard,
  block_effect,
  alternate_guard,
  alternate_effect,
  alternate_proposed_guard,
  alternate_proposed_effect,
  alternate_agreed_guard,
  alternate_agreed_effect,
  backup_guard,
  backup_effect,
};

use crate::acting::{
    acts_as_backup, acts_as_blocked, acts_as_designated, acts_as_disabled, acts_as_root,
    edge_delay, has_role, is_blocked, is_discarding, is_unrested, may_agree, may_be_synced,
    may_go_on, may_go_on_as_root, must_discard,
};
use crate::all_ports::{set_re_root, set_sync};
use rstp_state::{PortState, Role, Timing};

/// Returns `true` if the port has to become Disabled.
pub fn disable_guard(port: &PortState) -> bool
    ensures { result ≡ disable_guard port.now }
{
    port.may_act() && port.selected_role.is_disabled() && !port.role.is_disabled()
}

/// Makes the port Disabled.
pub fn disable(port: &mut PortState)
    ensures { port.new ≡ disable_effect port.old }
{
    port.role = Role::Disabled;
    port.learn = false;
    port.forward = false;
}

/// Returns `true` if a Disabled port hasn't come to rest.
pub fn disabled_port_guard(timing: &Timing, port: &PortState) -> bool
    ensures { result ≡ disabled_port_guard timing.now port.now }
{
    acts_as_disabled(port) && is_discarding(port) && is_unrested(port, u32::from(timing.max_age))
}

/// Brings a Disabled port to rest.
pub fn disabled_port(timing: &Timing, port: &mut PortState)
    ensures { port.new ≡ disabled_port_effect timing.now port.old }
{
    port.forward_delay_while = u32::from(timing.max_age);
    port.synced = true;
    port.recent_root_while = 0;
    port.sync = false;
    port.re_root = false;
}

/// Returns `true` if the port has to become the root port, or has to restart its time as root port.
pub fn root_guard(timing: &Timing, port: &PortState) -> bool
    ensures { result ≡ root_guard timing.now port.now }
{
    port.may_act()
        && port.selected_role.is_root()
        && (!port.role.is_root() || port.recent_root_while != u32::from(timing.forward_delay))
}

/// Makes the port the root port, or restarts its time as root port.
pub fn root(timing: &Timing, port: &mut PortState)
    ensures { port.new ≡ root_effect timing.now port.old }
{
    port.role = Role::Root;
    port.recent_root_while = u32::from(timing.forward_delay);
}

/// Returns `true` if the root port received a proposal, and hasn't agreed.
pub fn root_proposed_guard(port: &PortState) -> bool
    ensures { result ≡ root_proposed_guard port.now }
{
    acts_as_root(port) && port.proposed && !port.agree
}

/// Requests every port to come in step: the designated bridge proposes.
pub fn root_proposed(ports: &mut [PortState], p: usize)
    requires { p < length ports.old }
    ensures { ports.new ≡ root_proposed_effect p ports.old }
{
    set_sync(ports);
    ports[p].proposed = false;
}

/// Returns `true` if the root port has to agree.
pub fn root_agreed_guard(port: &PortState, all_synced: bool) -> bool
    ensures { result ≡ root_agreed_guard port.now all_synced }
{
    acts_as_root(port) && may_agree(port, all_synced)
}

/// Makes the root port agree.
pub fn root_agreed(port: &mut PortState)
    ensures { port.new ≡ root_agreed_effect port.old }
{
    port.proposed = false;
    port.sync = false;
    port.agree = true;
    port.new_info = true;
}

/// Returns `true` if the root port doesn't forward and isn't requested to leave the old root.
pub fn reroot_guard(port: &PortState) -> bool
    ensures { result ≡ reroot_guard port.now }
{
    acts_as_root(port) && !port.forward && !port.re_root
}

/// Requests every port to leave the old root.
pub fn reroot(ports: &mut [PortState])
    ensures { ports.new ≡ reroot_effect ports.old }
{
    set_re_root(ports);
}

/// Returns `true` if the root port forwards, and is requested to leave the old root.
pub fn rerooted_guard(port: &PortState) -> bool
    ensures { result ≡ rerooted_guard port.now }
{
    acts_as_root(port) && port.forward && port.re_root
}

/// Clears the request to leave the old root: the root port forwards.
pub fn rerooted(port: &mut PortState)
    ensures { port.new ≡ rerooted_effect port.old }
{
    port.re_root = false;
}

/// Returns `true` if the root port may begin to learn.
pub fn root_learn_guard(port: &PortState, re_rooted: bool) -> bool
    ensures { result ≡ root_learn_guard port.now re_rooted }
{
    acts_as_root(port) && !port.learn && may_go_on_as_root(port, re_rooted)
}

/// Makes the root port learn.
pub fn root_learn(timing: &Timing, port: &mut PortState)
    ensures { port.new ≡ root_learn_effect timing.now port.old }
{
    port.forward_delay_while = port.forward_delay(timing);
    port.learn = true;
}

/// Returns `true` if the root port may begin to forward.
pub fn root_forward_guard(port: &PortState, re_rooted: bool) -> bool
    ensures { result ≡ root_forward_guard port.now re_rooted }
{
    acts_as_root(port) && port.learn && !port.forward && may_go_on_as_root(port, re_rooted)
}

/// Makes the root port forward.
pub fn root_forward(port: &mut PortState)
    ensures { port.new ≡ root_forward_effect port.old }
{
    port.forward_delay_while = 0;
    port.forward = true;
}

/// Returns `true` if the port has to become Designated.
pub fn designated_guard(port: &PortState) -> bool
    ensures { result ≡ designated_guard port.now }
{
    port.may_act() && port.selected_role.is_designated() && !port.role.is_designated()
}

/// Makes the port Designated.
pub fn designated(port: &mut PortState)
    ensures { port.new ≡ designated_effect port.old }
{
    port.role = Role::Designated;
}

/// Returns `true` if a designated port hasn't yet requested an agreement.
pub fn propose_guard(port: &PortState) -> bool
    ensures { result ≡ propose_guard port.now }
{
    acts_as_designated(port) && !port.forward && !port.agreed && !port.proposing && !port.oper_edge
}

/// Requests an agreement for a designated port.
pub fn propose(timing: &Timing, port: &mut PortState)
    ensures { port.new ≡ propose_effect timing.now port.old }
{
    port.proposing = true;
    port.new_info = true;
    port.edge_delay_while = edge_delay(port, timing);
}

/// Returns `true` if a designated port is in step with the tree, and isn't marked as synced.
pub fn synced_guard(port: &PortState) -> bool
    ensures { result ≡ synced_guard port.now }
{
    acts_as_designated(port) && (may_be_synced(port) || (port.sync && port.synced))
}

/// Marks a designated port as synced.
pub fn synced(port: &mut PortState)
    ensures { port.new ≡ synced_effect port.old }
{
    port.recent_root_while = 0;
    port.synced = true;
    port.sync = false;
}

/// Returns `true` if a designated port still leaves an old root that is no longer recent.
pub fn retired_guard(port: &PortState) -> bool
    ensures { result ≡ retired_guard port.now }
{
    acts_as_designated(port) && port.recent_root_while == 0 && port.re_root
}

/// Ends a designated port's time as a recent root port.
pub fn retired(port: &mut PortState)
    ensures { port.new ≡ retired_effect port.old }
{
    port.re_root = false;
}

/// Returns `true` if a designated port that learns or forwards has to return to discarding.
pub fn designated_discard_guard(port: &PortState) -> bool
    ensures { result ≡ designated_discard_guard port.now }
{
    acts_as_designated(port)
        && !port.oper_edge
        && (port.learn || port.forward)
        && must_discard(port)
}

/// Moves a designated port back to discarding.
pub fn designated_discard(timing: &Timing, port: &mut PortState)
    ensures { port.new ≡ designated_discard_effect timing.now port.old }
{
    port.learn = false;
    port.forward = false;
    port.disputed = false;
    port.forward_delay_while = port.forward_delay(timing);
}

/// Returns `true` if a designated port may begin to learn.
pub fn designated_learn_guard(port: &PortState) -> bool
    ensures { result ≡ designated_learn_guard port.now }
{
    acts_as_designated(port) && !port.learn && may_go_on(port)
}

/// Makes a designated port learn.
pub fn designated_learn(timing: &Timing, port: &mut PortState)
    ensures { port.new ≡ designated_learn_effect timing.now port.old }
{
    port.learn = true;
    port.forward_delay_while = port.forward_delay(timing);
}

/// Returns `true` if a designated port may begin to forward.
pub fn designated_forward_guard(port: &PortState) -> bool
    ensures { result ≡ designated_forward_guard port.now }
{
    acts_as_designated(port) && port.learn && !port.forward && may_go_on(port)
}

/// Makes a designated port forward.
pub fn designated_forward(port: &mut PortState)
    ensures { port.new ≡ designated_forward_effect port.old }
{
    port.forward = true;
    port.forward_delay_while = 0;
    port.agreed = port.send_rstp;
}

/// Returns `true` if the port has to become Alternate or Backup.
pub fn block_guard(port: &PortState) -> bool
    ensures { result ≡ block_guard port.now }
{
    port.may_act() && is_blocked(port.selected_role) && !has_role(port)
}

/// Makes the port Alternate or Backup.
pub fn block(port: &mut PortState)
    ensures { port.new ≡ block_effect port.old }
{
    port.role = port.selected_role;
    port.learn = false;
    port.forward = false;
}

/// Returns `true` if an Alternate or Backup port hasn't come to rest.
pub fn alternate_guard(timing: &Timing, port: &PortState) -> bool
    ensures { result ≡ alternate_guard timing.now port.now }
{
    acts_as_blocked(port) && is_discarding(port) && is_unrested(port, port.forward_delay(timing))
}

/// Brings an Alternate or Backup port to rest.
pub fn alternate(timing: &Timing, port: &mut PortState)
    ensures { port.new ≡ alternate_effect timing.now port.old }
{
    port.forward_delay_while = port.forward_delay(timing);
    port.synced = true;
    port.recent_root_while = 0;
    port.sync = false;
    port.re_root = false;
}

/// Returns `true` if a blocked port received a proposal, and hasn't agreed.
pub fn alternate_proposed_guard(port: &PortState) -> bool
    ensures { result ≡ alternate_proposed_guard port.now }
{
    acts_as_blocked(port) && port.proposed && !port.agree
}

/// Requests every port to come in step: the designated bridge proposes.
pub fn alternate_proposed(ports: &mut [PortState], p: usize)
    requires { p < length ports.old }
    ensures { ports.new ≡ alternate_proposed_effect p ports.old }
{
    set_sync(ports);
    ports[p].proposed = false;
}

/// Returns `true` if a blocked port has to agree.
pub fn alternate_agreed_guard(port: &PortState, all_synced: bool) -> bool
    ensures { result ≡ alternate_agreed_guard port.now all_synced }
{
    acts_as_blocked(port) && may_agree(port, all_synced)
}

/// Makes the blocked port agree.
pub fn alternate_agreed(port: &mut PortState)
    ensures { port.new ≡ alternate_agreed_effect port.old }
{
    port.proposed = false;
    port.agree = true;
    port.new_info = true;
}

/// Returns `true` if the time of a Backup port isn't at its full value.
pub fn backup_guard(timing: &Timing, port: &PortState) -> bool
    ensures { result ≡ backup_guard timing.now port.now }
{
    acts_as_backup(port) && port.recent_backup_while != 2 * u32::from(timing.hello)
}

/// Restarts the time for which the port counts as a recent backup port.
pub fn backup(timing: &Timing, port: &mut PortState)
    ensures { port.new ≡ backup_effect timing.now port.old }
{
    port.recent_backup_while = 2 * u32::from(timing.hello);
}
