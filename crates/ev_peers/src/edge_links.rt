//! The links of an edge, over which its workers receive and send: those of its ports, its tunnels
//! and its clock.

/// Both directions of a link.
#[derive(Drop)]
pub struct Link<I: Drop, O: Drop> {
    /// The receiving direction.
    pub input: I,
    /// The sending direction.
    pub output: O,
}

/// The links of an edge.
#[derive(Drop)]
pub struct EdgeLinks<I: Drop, O: Drop> {
    /// The links of the access ports, port 1 first.
    pub ports: Vec<Link<I, O>>,
    /// The link of the tunnels.
    pub tunnel: Link<I, O>,
    /// The clock, which ticks each second.
    pub clock: I,
}
