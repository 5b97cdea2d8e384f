//! Route updates: registers, values, and their orders.
ghost use Rattle.std.specs.Prelude.{◌≡◌, ℕ, ◌<◌, ◌^◌, Some, refl};

use ether_wire::{Addr, Mac, Vni};
use std::cmp::Ordering;
use std::marker::Model;

/// An IPv6 address, as the number of its sixteen octets, the first one highest.
// Octets instead of one number of 128 bits, which the machine would align to 16 octets, or of two
// of 64, aligned to 8: an update is smaller by 56 octets, or by 8.
#[derive(Clone, Copy, Debug, PartialEq, Eq, Hash)]
pub struct Addr6 {
    octets: [u8; 16],
}

impl Model for Addr6 {
    ghost use Rattle.std.specs.Prelude.{ℕ, ◌≡◌};
    ghost use Rattle.byteorder.specs.Endian.{big_number};
    ghost use Rattle.route_wire.specs.Octets.{octets_of};

    ghost Value = { ℕ };

    ghost view = { λ a. big_number 16 a.octets };

    ghost invariant = { λ a. octets_of (big_number 16 a.octets) ≡ a.octets };

    ghost inverse = { λ n. record { octets = octets_of n } };

    ghost inverse_ok = { λ a h i. record { octets = h i } };
}

impl Addr6 {
    /// Returns the address of a number: each number of 128 bits is one.
    pub fn new(number: u128) -> Self
        ensures { result ≡ number }
    {
        Addr6 {
            octets: number.to_be_bytes(),
        }
    }

    /// Returns the number of the sixteen octets.
    pub fn number(self) -> u128
        ensures { result ≡ self }
    {
        u128::from_be_bytes(self.octets)
    }
}

impl Ord for Addr6 {
    ghost use Rattle.route_wire.specs.Order.{addr6_cmp};
    ghost use Rattle.route_wire.specs.Inner.Totals.{addr6_total};
    ghost use Rattle.route_wire.specs.Inner.Ties.{tied_addresses};

    ghost cmp = { addr6_cmp };

    ghost total = { addr6_total };

    ghost matches_partial_cmp = { λ x y. refl };

    ghost matches_eq = { tied_addresses };

    fn cmp(&self, other: &Addr6) -> Ordering {
        self.number().cmp(&other.number())
    }
}

impl PartialOrd for Addr6 {
    ghost use Rattle.std.specs.Cmp.{po};
    ghost use Rattle.route_wire.specs.Order.{addr6_cmp};
    ghost use Rattle.route_wire.specs.Inner.Totals.{addr6_total};
    ghost use Rattle.route_wire.specs.Inner.Ties.{tied_addresses};

    ghost partial_cmp = { λ x y. Some (addr6_cmp x y) };

    ghost laws = { po addr6_total tied_addresses };

    fn partial_cmp(&self, other: &Addr6) -> Option<Ordering> {
        Some(self.cmp(other))
    }
}

/// An IP address. All of version 4 come before those of version 6, and in one version the order of
/// numbers is that of the octets.
#[derive(Clone, Copy, Debug, PartialEq, Eq, Hash)]
pub enum Ip {
    /// Four octets.
    V4(Addr),
    /// Sixteen octets.
    V6(Addr6),
}

impl Ip {
    ghost use Rattle.route_wire.specs.Order.{ip_version, ip_number};

    /// Returns 4 or 6.
    pub fn version(self) -> u8
        ensures { result ≡ ip_version (Some self) }
    {
        match self {
            Ip::V4(_) => 4,
            Ip::V6(_) => 6,
        }
    }

    /// Returns the number of the address's octets.
    pub fn number(self) -> u128
        ensures { result ≡ ip_number (Some self) }
    {
        match self {
            Ip::V4(address) => u128::from(address.number()),
            Ip::V6(address) => address.number(),
        }
    }
}

impl Ord for Ip {
    ghost use Rattle.route_wire.specs.Order.{ip_order};
    ghost use Rattle.route_wire.specs.Inner.Totals.{ip_order_total};
    ghost use Rattle.route_wire.specs.Inner.Ties.{tied_ips};

    ghost cmp = { ip_order };

    ghost total = { ip_order_total };

    ghost matches_partial_cmp = { λ x y. refl };

    ghost matches_eq = { tied_ips };

    fn cmp(&self, other: &Ip) -> Ordering {
        self.version()
            .cmp(&other.version())
            .then(self.number().cmp(&other.number()))
    }
}

impl PartialOrd for Ip {
    ghost use Rattle.std.specs.Cmp.{po};
    ghost use Rattle.route_wire.specs.Order.{ip_order};
    ghost use Rattle.route_wire.specs.Inner.Totals.{ip_order_total};
    ghost use Rattle.route_wire.specs.Inner.Ties.{tied_ips};

    ghost partial_cmp = { λ x y. Some (ip_order x y) };

    ghost laws = { po ip_order_total tied_ips };

    fn partial_cmp(&self, other: &Ip) -> Option<Ordering> {
        Some(self.cmp(other))
    }
}

/// The subject of a route (RFC 7432, section 7): the flood list of a network, or an address in it,
/// with or without an IP address. The order is that of a report: by VNI, the flood list before the
/// addresses, then by MAC and by IP address, none first.
#[derive(Clone, Copy, Debug, PartialEq, Eq, Hash)]
pub enum Key {
    /// The flood list of a network: a route of type 3.
    Flood(Vni),
    /// A MAC address in a network, and its IP address: a route of type 2.
    Mac(Vni, Mac, Option<Ip>),
}

impl Key {
    ghost use Rattle.route_wire.specs.Order.{vni_of, place_of, ip_of, ip_version, ip_number};

    /// Returns the VNI of the key.
    pub(crate) fn vni(&self) -> Vni
        ensures { result ≡ vni_of self.now }
    {
        match self {
            Key::Flood(vni) => *vni,
            Key::Mac(vni, _, _) => *vni,
        }
    }

    /// Returns the IP address of the key, if it has one.
    pub fn ip(&self) -> Option<Ip>
        ensures { result ≡ ip_of self.now }
    {
        match self {
            Key::Flood(_) => None,
            Key::Mac(_, _, ip) => *ip,
        }
    }

    /// Returns the place of the key among those of its network: the flood list first, then the
    /// addresses.
    fn place(&self) -> u64
        ensures { result ≡ place_of self.now }
    {
        match self {
            Key::Flood(_) => 0,
            Key::Mac(_, mac, _) => mac.number() + 1,
        }
    }

    /// Returns the version of the key's IP address, 0 for none.
    fn ip_version(&self) -> u8
        ensures { result ≡ ip_version (ip_of self.now) }
    {
        match self.ip() {
            None => 0,
            Some(ip) => ip.version(),
        }
    }

    /// Returns the number of the key's IP address, 0 for none.
    fn ip_number(&self) -> u128
        ensures { result ≡ ip_number (ip_of self.now) }
    {
        match self.ip() {
            None => 0,
            Some(ip) => ip.number(),
        }
    }
}

impl Ord for Key {
    ghost use Rattle.route_wire.specs.Order.{key_cmp};
    ghost use Rattle.route_wire.specs.Inner.Totals.{key_total};
    ghost use Rattle.route_wire.specs.Inner.Ties.{tied_keys};

    ghost cmp = { key_cmp };

    ghost total = { key_total };

    ghost matches_partial_cmp = { λ x y. refl };

    ghost matches_eq = { tied_keys };

    fn cmp(&self, other: &Key) -> Ordering {
        self.vni()
            .cmp(&other.vni())
            .then(self.place().cmp(&other.place()))
            .then(self.ip_version().cmp(&other.ip_version()))
            .then(self.ip_number().cmp(&other.ip_number()))
    }
}

impl PartialOrd for Key {
    ghost use Rattle.std.specs.Cmp.{po};
    ghost use Rattle.route_wire.specs.Order.{key_cmp};
    ghost use Rattle.route_wire.specs.Inner.Totals.{key_total};
    ghost use Rattle.route_wire.specs.Inner.Ties.{tied_keys};

    ghost partial_cmp = { λ x y. Some (key_cmp x y) };

    ghost laws = { po key_total tied_keys };

    fn partial_cmp(&self, other: &Key) -> Option<Ordering> {
        Some(self.cmp(other))
    }
}

/// The place of an update in a table: its originator and its key. The order is that of a report: by
/// VNI, the flood list before the addresses, then by MAC, by originator, and by IP address, none
/// first.
#[derive(Clone, Copy, Debug, PartialEq, Eq, Hash)]
pub struct Register {
    /// The edge that sends the update.
    pub originator: Addr,
    /// The subject of the update.
    pub key: Key,
}

impl Ord for Register {
    ghost use Rattle.route_wire.specs.Order.{register_cmp};
    ghost use Rattle.route_wire.specs.Inner.Totals.{register_total};
    ghost use Rattle.route_wire.specs.Inner.Ties.{tied_registers};

    ghost cmp = { register_cmp };

    ghost total = { register_total };

    ghost matches_partial_cmp = { λ x y. refl };

    ghost matches_eq = { tied_registers };

    fn cmp(&self, other: &Register) -> Ordering {
        let (a, b) = (self.key, other.key);
        a.vni()
            .cmp(&b.vni())
            .then(a.place().cmp(&b.place()))
            .then(self.originator.cmp(&other.originator))
            .then(a.ip_version().cmp(&b.ip_version()))
            .then(a.ip_number().cmp(&b.ip_number()))
    }
}

impl PartialOrd for Register {
    ghost use Rattle.std.specs.Cmp.{po};
    ghost use Rattle.route_wire.specs.Order.{register_cmp};
    ghost use Rattle.route_wire.specs.Inner.Totals.{register_total};
    ghost use Rattle.route_wire.specs.Inner.Ties.{tied_registers};

    ghost partial_cmp = { λ x y. Some (register_cmp x y) };

    ghost laws = { po register_total tied_registers };

    fn partial_cmp(&self, other: &Register) -> Option<Ordering> {
        Some(self.cmp(other))
    }
}

/// An advert (RFC 7432, sections 7.2 and 7.7). Of two adverts the static one is greater, then the
/// one with the higher sequence number, then the one with the higher second label.
#[derive(Clone, Copy, Debug, PartialEq, Eq, PartialOrd, Ord)]
pub struct Advert {
    /// `true` if the address can't move.
    pub is_static: bool,
    /// The number of moves of the address.
    pub sequence: u32,
    /// The second label, which is stored and not used.
    pub label2: Option<Vni>,
}

/// The content of an update of a key. Withdrawn comes before each advert.
#[derive(Clone, Copy, Debug, PartialEq, Eq, PartialOrd, Ord)]
pub enum Content {
    /// The key is no longer advertised.
    Withdrawn,
    /// The key is advertised.
    Advert(Advert),
}

/// The value of a register: the incarnation of its originator, the number of the update in that
/// incarnation, and the content.
// The counter is the first field, so that a value has 32 octets and not 40.
#[derive(Clone, Copy, Debug, PartialEq, Eq)]
pub struct Value {
    /// The number of the update in the originator's incarnation, from 1.
    pub counter: u64,
    /// The incarnation of the originator, from 0.
    pub incarnation: u32,
    /// The content of the update.
    pub content: Content,
}

impl Value {
    ghost use Rattle.route_wire.specs.Order.{is_newer};

    /// Returns `true` if this value of a register replaces the other one: by its incarnation, then
    /// its counter, then its content.
    pub fn is_newer(&self, other: &Value) -> bool
        ensures { result ≡ is_newer self.now other.now }
    {
        if other.incarnation != self.incarnation {
            return other.incarnation < self.incarnation;
        }
        if other.counter != self.counter {
            return other.counter < self.counter;
        }
        other.content.cmp(&self.content).is_lt()
    }
}

/// A route update. Its counter is at least 1, its key's MAC is individual, and an advert of a flood
/// list has no further content.
#[derive(Clone, Copy, Debug, PartialEq, Eq)]
pub struct Update {
    register: Register,
    value: Value,
}

impl Model for Update {
    ghost use Rattle.route_wire.specs.Fields.{Fields, IsUpdate};

    ghost Value = { Fields };

    ghost view = { λ u. record { register = u.register; value = u.value } };

    ghost invariant = { λ u. IsUpdate record { register = u.register; value = u.value } };

    ghost inverse = { λ f. record { register = f.register; value = f.value } };
}

impl Update {
    ghost use Rattle.route_wire.specs.declared.update.Key.TheVariants.{Flood};
    ghost use Rattle.route_wire.specs.declared.update.Content.TheVariants.{Withdrawn};
    ghost use Rattle.route_wire.specs.Fields.{IsUpdate};
    ghost use Rattle.route_wire.specs.Order.{is_newer};

    /// Returns the update of a register and a value that fit together: the counter is at least 1,
    /// the MAC no group address, and an advert of a flood list has no further content.
    pub fn new(register: Register, value: Value) -> Self
        requires { IsUpdate record { register = register; value = value } }
        ensures { result ≡ record { register = register; value = value } }
    {
        Update { register, value }
    }

    /// Returns an update of no meaning, in the place to which a call writes one: the withdrawal of
    /// the flood list of network 0 by 0.0.0.0.
    pub fn placeholder() -> Self
        ensures { result ≡ record {
          register = record { originator = 0; key = Flood 0 };
          value = record { counter = 1; incarnation = 0; content = Withdrawn };
        } }
    {
        let register = Register {
            originator: Addr::new(0),
            key: Key::Flood(Vni::new(0)),
        };
        let value = Value {
            incarnation: 0,
            counter: 1,
            content: Content::Withdrawn,
        };
        Update::new(register, value)
    }

    /// Returns the register: the originator and the key.
    pub fn register(&self) -> Register
        ensures { result ≡ self.now.register }
    {
        self.register
    }

    /// Returns the value: incarnation, counter and content.
    pub fn value(&self) -> Value
        ensures { result ≡ self.now.value }
    {
        self.value
    }

    /// A law, which does nothing: each update is well formed.
    pub fn always_well_formed(&self)
        ensures { IsUpdate self.now }
    {
        let _ = &self.register;
    }

    /// Returns `true` if this update of a register is newer than the other one of that register.
    pub fn is_newer(&self, other: &Update) -> bool
        ensures { result ≡ is_newer self.now.value other.now.value }
    {
        self.value.is_newer(&other.value)
    }
}
