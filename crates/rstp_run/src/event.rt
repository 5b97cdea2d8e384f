//! The events of a bridge, and their results.

use arrayvec::ArrayVec;
use bpdu_wire::Bpdu;

/// An event at a bridge. Ports are numbered from 1.
#[derive(Clone, Copy, Debug, PartialEq, Eq)]
pub enum Event {
    /// The port receives the message.
    Bpdu(u8, Bpdu),
    /// A second passes.
    Second,
    /// The port comes up.
    PortUp(u8),
    /// The port goes down.
    PortDown(u8),
    /// The administrator requests that the port detect the other end's protocol again.
    Mcheck(u8),
}

/// The result of an event, without the messages to send.
#[derive(Clone, Copy, Debug, PartialEq, Eq)]
pub struct Effect {
    /// No rule is enabled any more.
    pub settled: bool,
    /// The ports whose learnt addresses have to be flushed: a set of ports of `ether_wire`.
    pub flush: u64,
}

/// The result of an event.
#[derive(Drop)]
pub struct Outcome {
    /// No rule is enabled any more.
    pub settled: bool,
    /// The ports whose learnt addresses have to be flushed: a set of ports of `ether_wire`.
    pub flush: u64,
    /// The messages to send, with the numbers of their ports, in ascending order of ports.
    pub out: ArrayVec<(u8, Bpdu), 64>,
}
