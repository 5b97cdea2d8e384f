//! The direct effects of an event on a port, before any rule fires.

ghost use Rattle.std.specs.Prelude.{◌≡◌};
ghost use Rattle.rstp_state.specs.Direct.{
  with_enabled,
  with_message,
  with_migration_check,
  with_second,
  without_slot,
};

use crate::port::PortState;
use bpdu_wire::Bpdu;

/// Empties the slot: removes the message that the previous event sent.
pub fn clear_slot(port: &mut PortState)
    ensures { port.new ≡ without_slot port.old }
{
    port.slot = None;
}

/// Lowers each running timer and the count of messages by one: a second passes.
pub fn pass_second(port: &mut PortState)
    ensures { port.new ≡ with_second port.old }
{
    port.hello_when = port.hello_when.saturating_sub(1);
    port.topology_change_while = port.topology_change_while.saturating_sub(1);
    port.forward_delay_while = port.forward_delay_while.saturating_sub(1);
    port.received_info_while = port.received_info_while.saturating_sub(1);
    port.recent_root_while = port.recent_root_while.saturating_sub(1);
    port.recent_backup_while = port.recent_backup_while.saturating_sub(1);
    port.migration_delay_while = port.migration_delay_while.saturating_sub(1);
    port.edge_delay_while = port.edge_delay_while.saturating_sub(1);
    port.transmit_count = port.transmit_count.saturating_sub(1);
}

/// Sets the port up or down.
pub fn set_enabled(port: &mut PortState, enabled: bool)
    ensures { port.new ≡ with_enabled enabled port.old }
{
    port.enabled = enabled;
}

/// Requests a new migration check: the administrator wants the port to detect the other end's
/// protocol again.
pub fn ask_migration_check(port: &mut PortState)
    ensures { port.new ≡ with_migration_check port.old }
{
    port.check_migration = true;
}

/// Stores a received message. Drops it if an earlier message is still pending, which happens only
/// at a bridge that is not settled.
pub fn store(port: &mut PortState, message: Bpdu)
    ensures { port.new ≡ with_message message port.old }
{
    if !port.received_bpdu && !port.received_message {
        port.message = Some(message);
        port.received_bpdu = true;
    }
}
