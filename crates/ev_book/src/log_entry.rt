//! The entries of the history.

use ev_edge::{Edge, EdgeConfig};
use route_wire::Update;
use std::collections::LinkedList;

/// An event of an edge that other edges can see.
#[derive(Clone, Copy)]
pub enum Deed {
    /// The edge was opened.
    Opens,
    /// The edge announced this update.
    Announces(Update),
    /// The edge was given this update of another edge.
    Takes(Update),
}

/// An entry of the history. No value of it is made.
pub enum LogEntry {
    /// The history begins, for edges with these configurations. If the flag is `true`, updates of
    /// other processes come in.
    Begins(bool, LinkedList<EdgeConfig>),
    /// The edge at this place, counted from 0, did this, and is in this state afterwards.
    Does(u64, Deed, Edge),
}
