//! The state transitions: a port learns and forwards as its role requires (17.30).

ghost use Rattle.std.specs.Prelude.{◌≡◌};
ghost use Rattle.rstp_roles.specs.StateTransitions.{
  to_learning_guard,
  to_learning_effect,
  to_forwarding_guard,
  to_forwarding_effect,
  to_discarding_guard,
  to_discarding_effect,
};

use rstp_state::PortState;

/// Returns `true` if the port should learn and doesn't.
pub fn to_learning_guard(port: &PortState) -> bool
    ensures { result ≡ to_learning_guard port.now }
{
    port.learn && !port.learning
}

/// Starts learning.
pub fn to_learning(port: &mut PortState)
    ensures { port.new ≡ to_learning_effect port.old }
{
    port.learning = true;
}

/// Returns `true` if the port learns, should forward, and doesn't.
pub fn to_forwarding_guard(port: &PortState) -> bool
    ensures { result ≡ to_forwarding_guard port.now }
{
    port.learning && port.forward && !port.forwarding
}

/// Starts forwarding.
pub fn to_forwarding(port: &mut PortState)
    ensures { port.new ≡ to_forwarding_effect port.old }
{
    port.forwarding = true;
}

/// Returns `true` if the port learns or forwards, and should no longer do so.
pub fn to_discarding_guard(port: &PortState) -> bool
    ensures { result ≡ to_discarding_guard port.now }
{
    (port.learning && !port.learn) || (port.forwarding && !port.forward)
}

/// Stops learning and forwarding.
pub fn to_discarding(port: &mut PortState)
    ensures { port.new ≡ to_discarding_effect port.old }
{
    port.learning = false;
    port.forwarding = false;
}
