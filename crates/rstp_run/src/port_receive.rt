//! The receive rules (17.23): a stored message goes to the other machines.

ghost use Rattle.std.specs.Prelude.{◌≡◌};
ghost use Rattle.rstp_run.specs.PortReceive.{discard_guard, discard_effect, receive_guard, receive_effect};

use bpdu_wire::Bpdu;
use rstp_state::PortState;

/// Returns `true` if a port that isn't enabled has a message to drop, or an edge delay to restart.
pub(crate) fn discard_guard(port: &PortState) -> bool
    ensures { result ≡ discard_guard port.now }
{
    (port.received_bpdu || port.edge_delay_while != 3) && !port.enabled
}

/// Drops the received message of a port that is not enabled, and restarts its edge delay.
pub(crate) fn discard(port: &mut PortState)
    ensures { port.new ≡ discard_effect port.old }
{
    port.received_bpdu = false;
    port.received_rstp = false;
    port.received_stp = false;
    port.received_message = false;
    port.edge_delay_while = 3;
}

/// Returns `true` if a message arrived that may go to the other machines: the previous one is
/// processed.
pub(crate) fn receive_guard(port: &PortState) -> bool
    ensures { result ≡ receive_guard port.now }
{
    port.received_bpdu && port.enabled && !port.received_message
}

/// Passes the stored message to the other machines, and makes the port no edge.
pub(crate) fn receive(port: &mut PortState)
    ensures { port.new ≡ receive_effect port.old }
{
    if let Some(Bpdu::Rst(_)) = port.message {
        port.received_rstp = true;
    } else {
        port.received_stp = true;
    }
    port.oper_edge = false;
    port.received_bpdu = false;
    port.received_message = true;
    port.edge_delay_while = 3;
}
