//! The flags octet of a message (IEEE 802.1D-2004, 9.3.3). A Configuration BPDU has only the first
//! flag and the last one (9.3.1).

/// The sender announces a topology change.
pub const TOPOLOGY_CHANGE: u8 = 0x01;
/// The sender requests an agreement.
pub const PROPOSAL: u8 = 0x02;
/// The two bits of the role of the sender's port.
pub const ROLE_BITS: u8 = 0x0c;
/// The role is not known.
pub const UNKNOWN_ROLE: u8 = 0x00;
/// The port is an alternate or a backup port.
pub const ALTERNATE_OR_BACKUP_ROLE: u8 = 0x04;
/// The port is the root port.
pub const ROOT_ROLE: u8 = 0x08;
/// The port is a designated port.
pub const DESIGNATED_ROLE: u8 = 0x0c;
/// The sender's port learns.
pub const LEARNING: u8 = 0x10;
/// The sender's port forwards.
pub const FORWARDING: u8 = 0x20;
/// The sender agrees.
pub const AGREEMENT: u8 = 0x40;
/// The sender acknowledges the topology change.
pub const CHANGE_ACKNOWLEDGEMENT: u8 = 0x80;
