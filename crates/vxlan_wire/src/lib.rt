//! The VXLAN header (RFC 7348, section 5), which precedes a frame.
#![tactic(auto)]

mod vxlan;

pub use vxlan::{NO_INSTANCE, TOO_SHORT, VxlanRefusal, header, read, written_header_is_read};

#[cfg(test)]
mod tests;
