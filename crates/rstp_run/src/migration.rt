//! The protocol migration rules (17.24): which protocol the port sends.

ghost use Rattle.std.specs.Prelude.{◌≡◌};
ghost use Rattle.rstp_state.specs.Port.{is_checking, is_selecting, is_sensing};
ghost use Rattle.rstp_run.specs.Migration.{
  enter_checking,
  enter_selecting,
  enter_sensing,
  recheck_guard,
  checked_guard,
  selected_guard,
  to_rstp_guard,
  to_stp_guard,
};

use rstp_state::{Migration, PortState};

/// Returns `true` if the machine is in its state Checking.
pub(crate) fn is_checking(state: Migration) -> bool
    ensures { result ≡ is_checking state }
{
    matches!(state, Migration::Checking)
}

/// Returns `true` if the machine is in its state Selecting.
fn is_selecting(state: Migration) -> bool
    ensures { result ≡ is_selecting state }
{
    matches!(state, Migration::Selecting)
}

/// Returns `true` if the machine is in its state Sensing.
fn is_sensing(state: Migration) -> bool
    ensures { result ≡ is_sensing state }
{
    matches!(state, Migration::Sensing)
}

/// Makes the port send the rapid protocol, and starts the delay before it listens for the older
/// one.
pub(crate) fn enter_checking(port: &mut PortState)
    ensures { port.new ≡ enter_checking port.old }
{
    port.migration = Migration::Checking;
    port.check_migration = false;
    port.send_rstp = true;
    port.migration_delay_while = 3;
}

/// Makes the port send the older protocol, and starts the delay before it listens for the rapid
/// one.
pub(crate) fn enter_selecting(port: &mut PortState)
    ensures { port.new ≡ enter_selecting port.old }
{
    port.migration = Migration::Selecting;
    port.send_rstp = false;
    port.migration_delay_while = 3;
}

/// Makes the port listen for the other protocol.
pub(crate) fn enter_sensing(port: &mut PortState)
    ensures { port.new ≡ enter_sensing port.old }
{
    port.migration = Migration::Sensing;
    port.received_rstp = false;
    port.received_stp = false;
}

/// Continues checking: the port is not enabled.
pub(crate) fn recheck_guard(port: &PortState) -> bool
    ensures { result ≡ recheck_guard port.now }
{
    is_checking(port.migration) && port.migration_delay_while != 3 && !port.enabled
}

/// Ends checking.
pub(crate) fn checked_guard(port: &PortState) -> bool
    ensures { result ≡ checked_guard port.now }
{
    is_checking(port.migration) && port.migration_delay_while == 0 && port.enabled
}

/// Ends selecting.
pub(crate) fn selected_guard(port: &PortState) -> bool
    ensures { result ≡ selected_guard port.now }
{
    is_selecting(port.migration)
        && (port.migration_delay_while == 0 || !port.enabled || port.check_migration)
}

/// Moves the port back to the rapid protocol.
pub(crate) fn to_rstp_guard(port: &PortState) -> bool
    ensures { result ≡ to_rstp_guard port.now }
{
    is_sensing(port.migration)
        && (!port.enabled || port.check_migration || (!port.send_rstp && port.received_rstp))
}

/// Changes the port to the older protocol.
pub(crate) fn to_stp_guard(port: &PortState) -> bool
    ensures { result ≡ to_stp_guard port.now }
{
    is_sensing(port.migration) && port.send_rstp && port.received_stp
}
