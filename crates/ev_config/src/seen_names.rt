//! The names that the tables of a document spell.
ghost use Rattle.std.specs.Prelude.{◌≡◌, ◌+◌, ◌<◌, ◌≤◌, length, is_some, Some};
ghost use Rattle.toml.specs.View.{view, table_view};
ghost use Rattle.ev_config.specs.Keys.{addr_in, bridge_in, new_among};
ghost use Rattle.ev_config.specs.Faults.{after, no_names};

use crate::values::{addr_in, address_at, bridge_at, bridge_in};
use arrayvec::ArrayVec;
use ether_wire::{Addr, Mac};
use toml::{Table, Value};

/// The names that tables spell.
#[derive(Drop)]
pub(crate) struct SeenNames {
    /// Their addresses.
    pub(crate) addresses: ArrayVec<Addr, 64>,
    /// Their bridges.
    bridges: ArrayVec<Mac, 64>,
}

impl SeenNames {
    ghost use Rattle.ev_config.specs.Inner.Faults.{names_view};

    /// Returns no names.
    pub(crate) fn new() -> Self
        ensures { names_view result ≡ no_names }
    {
        SeenNames {
            addresses: ArrayVec::new(),
            bridges: ArrayVec::new(),
        }
    }

    /// Adds the names that a table spells.
    pub(crate) fn join(&mut self, table: &Table)
        requires addresses { length self.old.addresses.items < 64 }
        requires bridges { length self.old.bridges.items < 64 }
        ensures value { names_view self.new
            ≡ after (names_view self.old) (Some (table_view table.now)) }
        ensures addresses { length self.new.addresses.items
            ≤ length self.old.addresses.items + 1 }
        ensures bridges { length self.new.bridges.items ≤ length self.old.bridges.items + 1 }
    {
        if let Some(address) = address_at(table) {
            self.addresses.push(address);
        }
        if let Some(bridge) = bridge_at(table) {
            self.bridges.push(bridge);
        }
    }

    /// Returns `true` if a value is an address that no table before spells.
    pub(crate) fn is_new_address(&self, value: &Value) -> bool
        ensures { result ≡ is_some (new_among self.now.addresses.items (addr_in (view value.now))) }
    {
        match addr_in(value) {
            Some(address) => !self.addresses.contains(&address),
            None => false,
        }
    }

    /// Returns `true` if a value is the address of a station that no table before spells.
    pub(crate) fn is_new_bridge(&self, value: &Value) -> bool
        ensures { result ≡ is_some (new_among self.now.bridges.items (bridge_in (view value.now))) }
    {
        match bridge_in(value) {
            Some(bridge) => !self.bridges.contains(&bridge),
            None => false,
        }
    }
}
