//! The content of a BPDU: the fields of a message, and the three kinds.

use crate::flags::{ALTERNATE_OR_BACKUP_ROLE, ROLE_BITS, ROOT_ROLE, UNKNOWN_ROLE};
use crate::id::{BridgeId, PortId};

/// The role of the sender's port in a Rapid Spanning Tree BPDU (IEEE 802.1D-2004, 9.3.3).
#[derive(Clone, Copy, Debug, PartialEq, Eq)]
pub enum SenderRole {
    Unknown,
    AlternateOrBackup,
    Root,
    Designated,
}

/// The number of units of a message's times in a second (IEEE 802.1D-2004, 9.2.8).
pub const TIME_UNITS: u16 = 256;
/// The greatest number that fits the field of a time.
pub const MOST_TIME: u16 = 65535;

/// The content of a Configuration or a Rapid Spanning Tree BPDU (IEEE 802.1D-2004, 9.3.1 and
/// 9.3.3). Each field has its value in the octets: times are in units of which `TIME_UNITS` are a
/// second.
#[derive(Clone, Copy, Debug, PartialEq, Eq)]
pub struct Message {
    /// The flags of `flags.rt`, as in the octet.
    pub flags: u8,
    /// The bridge that is the root for the sender.
    pub root: BridgeId,
    /// The cost of the sender's path to the root.
    pub cost: u32,
    /// The sender.
    pub bridge: BridgeId,
    /// The sender's port.
    pub port: PortId,
    /// The age of the root's message.
    pub message_age: u16,
    /// The age at which bridges have to drop the message.
    pub max_age: u16,
    /// The interval at which the root sends.
    pub hello: u16,
    /// The time that a port waits before it learns, and before it forwards.
    pub forward_delay: u16,
}

impl Message {
    ghost use Rattle.std.specs.Prelude.{◌≡◌};
    ghost use Rattle.bpdu_wire.specs.Bpdu.{role_of, is_expired};

    /// Returns the role in the flags.
    pub fn role(&self) -> SenderRole
        ensures { result ≡ role_of self.now.flags }
    {
        match self.flags & ROLE_BITS {
            UNKNOWN_ROLE => SenderRole::Unknown,
            ALTERNATE_OR_BACKUP_ROLE => SenderRole::AlternateOrBackup,
            ROOT_ROLE => SenderRole::Root,
            _ => SenderRole::Designated,
        }
    }

    /// Returns `true` if the message age isn't below the max age.
    pub(crate) fn is_expired(&self) -> bool
        ensures { result ≡ is_expired self.now }
    {
        self.max_age <= self.message_age
    }
}

/// A BPDU (IEEE 802.1D-2004, 9.3).
#[derive(Clone, Copy, Debug, PartialEq, Eq, Default)]
pub enum Bpdu {
    /// A Configuration BPDU, of the older protocol.
    Config(Message),
    /// A Rapid Spanning Tree BPDU.
    Rst(Message),
    /// A Topology Change Notification BPDU, of the older protocol.
    #[default]
    Tcn,
}

impl Bpdu {
    ghost use Rattle.std.specs.Prelude.{◌≡◌};
    ghost use Rattle.bpdu_wire.specs.Bpdu.{is_aged};

    /// Returns `true` if the BPDU is refused for its age: it is a Configuration BPDU or a
    /// designated port's Rapid Spanning Tree BPDU, and its message age isn't below its max age.
    pub(crate) fn is_aged(&self) -> bool
        ensures { result ≡ is_aged self.now }
    {
        match self {
            Bpdu::Config(message) => message.is_expired(),
            Bpdu::Rst(message) => {
                message.role() == SenderRole::Designated && message.is_expired()
            }
            Bpdu::Tcn => false,
        }
    }
}
