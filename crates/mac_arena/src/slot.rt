//! A place of the learning table: empty, or a station with its entry.
ghost use Rattle.std.specs.Prelude.{◌≡◌, None, Some};
ghost use Rattle.std.specs.Option.{option_map};
ghost use Rattle.mac_arena.specs.Entry.{pinned_at};
ghost use Rattle.mac_arena.specs.Inner.Slot.{heard_on, held_on, shifted_to};

use crate::station::{Entry, Learned, Station};
use ether_wire::{Mac, Vni};
use std::marker::Model;

/// A node's place: empty, or a station with its entry.
// The fields are ordered by size and without structs of their own, so that a slot has 24 octets
// instead of 48: more of a large table stays in the processor's caches.
#[derive(Clone, Drop)]
pub(crate) struct Slot {
    mac: Mac,
    last: u64,
    vni: Vni,
    port: u8,
    pinned: bool,
    taken: bool,
}

impl Model for Slot {
    ghost use Rattle.std.specs.Prelude.{Option};
    ghost use Rattle.mac_arena.specs.Inner.Slot.{learned_in};
    ghost use Rattle.mac_arena.specs.declared.station.Learned.{Learned};

    ghost Value = { Option Learned };

    ghost view = { λ s. learned_in s.taken record {
      station = record { vni = s.vni; mac = s.mac };
      entry = record { port = s.port; last = s.last; pinned = s.pinned };
    } };
}

impl Slot {
    /// Returns an empty place.
    pub(crate) fn nobody() -> Self
        ensures { result ≡ None }
    {
        Slot {
            mac: Mac::new(0),
            last: 0,
            vni: Vni::new(0),
            port: 0,
            pinned: false,
            taken: false,
        }
    }

    /// A station that is pinned on a port.
    pub(crate) fn pinned(station: &Station, port: u8) -> Self
        ensures { result ≡ Some (record { station = station.now; entry = pinned_at port }) }
    {
        Slot {
            mac: station.mac,
            last: 0,
            vni: station.vni,
            port,
            pinned: true,
            taken: true,
        }
    }

    /// Returns the station with its entry.
    pub(crate) fn learned(&self) -> Option<Learned>
        ensures { result ≡ self.now }
    {
        if !self.taken {
            return None;
        }
        let station = Station {
            vni: self.vni,
            mac: self.mac,
        };
        let entry = Entry {
            port: self.port,
            last: self.last,
            pinned: self.pinned,
        };
        Some(Learned { station, entry })
    }

    /// The station is heard on the port where it is.
    pub(crate) fn hear(&mut self, second: u64)
        ensures { self.new ≡ option_map (heard_on second) self.old }
    {
        self.last = second;
        self.pinned = false;
    }

    /// The station is pinned on the port where it is.
    pub(crate) fn hold(&mut self)
        ensures { self.new ≡ option_map held_on self.old }
    {
        self.last = 0;
        self.pinned = true;
    }

    /// The station goes to another port.
    pub(crate) fn shift(&mut self, port: u8)
        ensures { self.new ≡ option_map (shifted_to port) self.old }
    {
        self.port = port;
    }

    /// The station leaves.
    pub(crate) fn leave(&mut self)
        ensures { self.new ≡ None }
    {
        self.taken = false;
    }
}
