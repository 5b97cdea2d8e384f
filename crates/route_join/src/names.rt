//! The texts of originators, which the lines of a report repeat.
ghost use Rattle.std.specs.Prelude.{◌≡◌, ◌+◌, ◌≤◌, ◌++◌, length, take};
ghost use Rattle.ether_wire.specs.Addr.{addr_text};
ghost use Rattle.route_join.specs.Inner.Names.{IsName};

use ether_wire::{Addr, addr_at, word_at};
use std::marker::Model;

/// The size of the array with an address's text, which is copied as a whole.
const NAME: usize = 20;

/// The number of texts that are kept, as many as there can be originators.
const NAMES: usize = 64;

/// The number of an address, and its text.
#[derive(Clone, Copy)]
struct Name {
    address: u32,
    octets: [u8; NAME],
    len: usize,
}

impl Name {
    /// Returns an address with its text.
    fn new(address: u32) -> Self
        ensures name { IsName result }
        ensures address { result.address ≡ address }
    {
        let mut octets = [0; NAME];
        let len = addr_at(&mut octets, 0, Addr::new(address));
        Name {
            address,
            octets,
            len,
        }
    }

    /// Writes the text into a line.
    #[tactic(auto, using(ether_wire::proofs::Appending::part_behind))]
    fn write_at(&self, line: &mut [u8], at: usize) -> usize
        requires name { IsName self.now }
        requires room { at + NAME ≤ length line.old }
        ensures text { take result line.new ≡ take at line.old ++ addr_text self.now.address }
        ensures end { result ≤ at + NAME }
        ensures len { length line.new ≡ length line.old }
    {
        let all = &self.octets[..];
        let _ = word_at(line, at, all);
        at + self.len
    }
}

/// Texts of addresses, each at the place that the address's lowest bits give.
#[derive(Drop)]
pub(crate) struct Names {
    kept: [Name; NAMES],
}

impl Model for Names {
    ghost use Rattle.std.specs.List.{All};
    ghost use Rattle.route_join.specs.Inner.Names.{IsName};

    ghost Value = { Unit {0} };

    ghost view = { λ n. tt };

    ghost invariant = { λ n. All IsName n.kept };
}

impl Names {
    /// Returns the text of one address, at each place.
    pub(crate) fn new() -> Self {
        Names {
            kept: [Name::new(0); NAMES],
        }
    }

    /// Writes the text of an address. It is made only if its place has the text of another one.
    pub(crate) fn name_at(&mut self, line: &mut [u8], at: usize, address: Addr) -> usize
        requires { at + NAME ≤ length line.old }
        ensures text { take result line.new ≡ take at line.old ++ addr_text address }
        ensures end { result ≤ at + NAME }
        ensures len { length line.new ≡ length line.old }
    {
        let number = address.number();
        let place = number as usize % NAMES;
        if self.kept[place].address != number {
            self.kept[place] = Name::new(number);
        }
        self.kept[place].write_at(line, at)
    }
}
