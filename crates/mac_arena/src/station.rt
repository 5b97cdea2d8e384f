//! Stations and their entries.
use ether_wire::{Mac, Vni};

/// A station: a MAC address within a VNI.
#[derive(Clone, Copy, Debug, PartialEq, Eq, Hash, PartialOrd, Ord)]
pub struct Station {
    pub vni: Vni,
    pub mac: Mac,
}

/// The entry of a station.
#[derive(Clone, Copy, Debug, PartialEq, Eq)]
pub struct Entry {
    /// The station's port, from 1.
    pub port: u8,
    /// The second of the station's last frame; 0 while it is pinned.
    pub last: u64,
    /// `true` if an operator set the entry. It then stays on its port until it is removed.
    pub pinned: bool,
}

/// A station with its entry.
#[derive(Clone, Copy, Debug, PartialEq, Eq)]
pub struct Learned {
    pub station: Station,
    pub entry: Entry,
}
