//! BPDUs: the messages by which bridges agree on a spanning tree (IEEE 802.1D-2004, clause 9).
#![tactic(auto)]

mod bpdu;
mod flags;
mod id;
mod laws;
mod reading;
mod refusal;
#[cfg(test)]
mod tests;
mod writing;

pub use bpdu::{Bpdu, MOST_TIME, Message, SenderRole, TIME_UNITS};
pub use flags::{
    AGREEMENT, ALTERNATE_OR_BACKUP_ROLE, CHANGE_ACKNOWLEDGEMENT, DESIGNATED_ROLE, FORWARDING,
    LEARNING, PROPOSAL, ROLE_BITS, ROOT_ROLE, TOPOLOGY_CHANGE, UNKNOWN_ROLE,
};
pub use id::{BridgeId, PortId};
pub use laws::numbers_are_standard;
pub use reading::read;
pub use refusal::{BAD_PROTOCOL, BAD_TYPE, BAD_VERSION, BpduRefusal, OVER_AGE, TOO_SHORT};
pub use writing::write;
