//! The configuration of an edge at its opening.
use arrayvec::ArrayVec;
use ether_wire::{Addr, Vni};

/// The configuration of an edge at its opening.
#[derive(Drop)]
pub struct Start {
    /// The address under which the edge speaks. It is one of the originators.
    pub address: Addr,
    /// Which incarnation of this originator begins, from 0.
    pub incarnation: u32,
    /// The originators that the edge listens to, which all differ.
    pub originators: ArrayVec<Addr, 64>,
    /// The VNI of each access port, port 1 first.
    pub ports: ArrayVec<Vni, 64>,
    /// The VNIs that the edge serves, which all differ.
    pub vnis: ArrayVec<Vni, 64>,
    /// How many stations may be learnt at a time, 65536 at most.
    pub capacity: usize,
    /// How many buckets the learning table has, 1 to 65536.
    pub buckets: usize,
    /// What keeps a stranger from choosing stations that all fall into one bucket.
    pub salt: u64,
}
