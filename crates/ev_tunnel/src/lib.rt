//! Forwarding decisions, and the datagrams that carry frames between edges.
#![tactic(auto)]

mod datagram;
mod decision;
mod laws;
mod place;

pub use datagram::{unwrap_datagram, wrap, wrapped_frame_is_unwrapped};
pub use decision::{Decision, Forwarding, Source, decide, decide_into};
pub use laws::{
    known_goes_to_one_place, members_that_pass, never_back, never_from_tunnel_to_tunnel,
    never_to_an_edge_that_is_away, others_that_advertise,
};

#[cfg(test)]
mod tests;
