//! The bridge detection rules (17.25): whether the port leads to a bridge.

ghost use Rattle.std.specs.Prelude.{◌≡◌};
ghost use Rattle.rstp_run.specs.BridgeDetection.{
  finds_no_bridge,
  edge_guard,
  edge_effect,
  not_edge_guard,
  not_edge_effect,
};

use rstp_state::PortState;

/// Returns `true` if the port requested an agreement and no bridge answered in time (17.25).
fn finds_no_bridge(port: &PortState) -> bool
    ensures { result ≡ finds_no_bridge port.now }
{
    port.edge_delay_while == 0 && port.auto_edge && port.send_rstp && port.proposing
}

/// Returns `true` if a port that isn't an edge is one by its settings, or has found no bridge.
pub(crate) fn edge_guard(port: &PortState) -> bool
    ensures { result ≡ edge_guard port.now }
{
    !port.oper_edge && ((!port.enabled && port.admin_edge) || finds_no_bridge(port))
}

/// Makes the port an edge: it leads to no bridge.
pub(crate) fn edge(port: &mut PortState)
    ensures { port.new ≡ edge_effect port.old }
{
    port.oper_edge = true;
}

/// Returns `true` if the port is an edge that went down and isn't an edge by its settings.
pub(crate) fn not_edge_guard(port: &PortState) -> bool
    ensures { result ≡ not_edge_guard port.now }
{
    port.oper_edge && !port.enabled && !port.admin_edge
}

/// Ends the edge state of a port that went down and isn't an edge by its settings.
pub(crate) fn not_edge(port: &mut PortState)
    ensures { port.new ≡ not_edge_effect port.old }
{
    port.oper_edge = false;
}
