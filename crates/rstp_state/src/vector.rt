//! Vectors and times of the spanning tree.

ghost use Rattle.std.specs.Prelude.{◌≡◌};
ghost use Rattle.rstp_state.specs.Vector.{is_less, vector_of, times_of, superior};

use bpdu_wire::{BridgeId, Message, PortId, TIME_UNITS};

/// A priority vector: a bridge's path to the root, as the bridge sends it. Vectors are compared
/// field by field in this order, and the lesser one is better (IEEE 802.1D-2004, 17.5).
#[derive(Clone, Copy, Debug, Default, PartialEq, Eq, PartialOrd, Ord)]
pub struct Vector {
    /// The bridge that is the root.
    pub root: BridgeId,
    /// The cost of the path to the root.
    pub cost: u32,
    /// The designated bridge, which sends the vector.
    pub bridge: BridgeId,
    /// That bridge's port.
    pub port: PortId,
}

/// The times that a root sends, in seconds.
#[derive(Clone, Copy, Debug, Default, PartialEq, Eq)]
pub struct Times {
    /// The number of bridges that a message has passed.
    pub message_age: u16,
    pub max_age: u16,
    pub hello: u16,
    pub forward_delay: u16,
}

impl Vector {
    /// Returns the vector in the message: its sender's path to the root.
    pub fn of_message(message: &Message) -> Self
        ensures { result ≡ vector_of message.now }
    {
        Vector {
            root: message.root,
            cost: message.cost,
            bridge: message.bridge,
            port: message.port,
        }
    }

    /// Returns `true` if this vector is better than the other.
    pub fn is_less(&self, other: &Vector) -> bool
        ensures { result ≡ is_less self.now other.now }
    {
        self.cmp(other).is_lt()
    }
}

impl Times {
    /// Returns the times in the message, in seconds: each is rounded up, and Hello is at least 1.
    pub fn of_message(message: &Message) -> Self
        ensures { result ≡ times_of message.now }
    {
        Times {
            message_age: message.message_age.div_ceil(TIME_UNITS),
            max_age: message.max_age.div_ceil(TIME_UNITS),
            hello: message.hello.div_ceil(TIME_UNITS).max(1),
            forward_delay: message.forward_delay.div_ceil(TIME_UNITS),
        }
    }
}

/// Returns `true` if a message with this vector and these times is superior to a port's: its vector
/// is better, or it comes from exactly the bridge and port that the port's vector names, and has a
/// different vector or different times (IEEE 802.1D-2004, 17.6).
pub fn superior(vector: &Vector, times: &Times, port_vector: &Vector, port_times: &Times) -> bool
    ensures { result ≡ superior vector.now times.now port_vector.now port_times.now }
{
    let is_same_sender = vector.bridge.address() == port_vector.bridge.address()
        && vector.port.port_number() == port_vector.port.port_number();
    vector.is_less(port_vector)
        || is_same_sender && (*vector != *port_vector || *times != *port_times)
}
