//! Identifiers of bridges and ports.

ghost use Rattle.std.specs.Prelude.{◌≡◌, ℕ, ◌+◌, ◌*◌, ◌%◌, ◌<◌, ◌^◌};
ghost use Rattle.bpdu_wire.specs.Id.{bridge_priority, bridge_address, port_priority, port_number};

use std::marker::Model;

/// A bridge identifier, as the number of its eight octets: a priority of two octets, and then the
/// bridge's address of six (IEEE 802.1D-2004, 9.2.5). The lower identifier is the better one.
#[derive(Clone, Copy, Debug, Default, PartialEq, Eq, Hash, PartialOrd, Ord)]
pub struct BridgeId {
    number: u64,
}

impl Model for BridgeId {
    ghost Value = { ℕ };

    ghost view = { λ b. b.number };

    ghost invariant = { λ b. b.number < 2 ^ 64 };

    ghost inverse = { λ n. record { number = n } };
}

impl BridgeId {
    /// Returns the identifier with the eight octets of this number, the highest first.
    pub fn new(number: u64) -> Self
        ensures { result ≡ number }
    {
        BridgeId { number }
    }

    /// Returns the identifier with this priority and this address of six octets.
    pub fn from_parts(priority: u16, address: u64) -> Self
        requires { address < 2 ^ 48 }
        ensures { result ≡ priority * 2 ^ 48 + address }
    {
        BridgeId {
            number: u64::from(priority) * 0x1_0000_0000_0000 + address,
        }
    }

    /// Returns the number of all eight octets.
    pub fn number(self) -> u64
        ensures { result ≡ self }
    {
        self.number
    }

    /// Returns the priority, the first two octets.
    pub fn priority(self) -> u16
        ensures { result ≡ bridge_priority self }
    {
        (self.number / 0x1_0000_0000_0000) as u16
    }

    /// Returns the bridge's address, as the number of the last six octets.
    pub fn address(self) -> u64
        ensures value { result ≡ bridge_address self }
        ensures small { result < 2 ^ 48 }
    {
        self.number % 0x1_0000_0000_0000
    }
}

/// A port identifier, as the number of its two octets: a priority in the top four bits,
/// and the port's number in the other twelve (IEEE 802.1D-2004, 9.2.7). The lower
/// identifier is the better one.
#[derive(Clone, Copy, Debug, Default, PartialEq, Eq, Hash, PartialOrd, Ord)]
pub struct PortId {
    number: u16,
}

impl Model for PortId {
    ghost Value = { ℕ };

    ghost view = { λ p. p.number };

    ghost invariant = { λ p. p.number < 2 ^ 16 };

    ghost inverse = { λ n. record { number = n } };
}

impl PortId {
    /// Returns the identifier with the two octets of this number, the higher first.
    pub fn new(number: u16) -> Self
        ensures { result ≡ number }
    {
        PortId { number }
    }

    /// Returns the identifier with this priority, of 0 to 240 in steps of 16, and this port's
    /// number.
    pub fn from_parts(priority: u8, number: u16) -> Self
        requires steps { priority % 16 ≡ 0 }
        requires fits { number < 2 ^ 12 }
        ensures { result ≡ priority * 2 ^ 8 + number }
    {
        PortId {
            number: u16::from(priority) * 0x100 + number,
        }
    }

    /// Returns the number of both octets.
    pub fn number(self) -> u16
        ensures { result ≡ self }
    {
        self.number
    }

    /// Returns the priority, of 0 to 240 in steps of 16: the top four bits.
    pub fn priority(self) -> u8
        ensures { result ≡ port_priority self }
    {
        (self.number / 0x1000 * 0x10) as u8
    }

    /// Returns the port's number, the low twelve bits.
    pub fn port_number(self) -> u16
        ensures value { result ≡ port_number self }
        ensures small { result < 2 ^ 12 }
    {
        self.number % 0x1000
    }
}
