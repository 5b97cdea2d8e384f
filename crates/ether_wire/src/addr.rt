//! MAC addresses, network identifiers and IPv4 addresses: numbers that are seen as such.
ghost use Rattle.std.specs.Prelude.{◌≡◌, ℕ, ◌+◌, ◌<◌, ◌^◌, ◌↔◌, IsTrue, Some, ◌≤◌, length};
ghost use Rattle.byteorder.specs.Endian.{big_number, big_bytes};
ghost use Rattle.ether_wire.specs.Addr.{mac_text, addr_text, is_group, is_reserved, bridge_group};

use byteorder::{BigEndian, ByteOrder};
use std::fmt;
use std::marker::Model;

/// A MAC address (IEEE 802), as the number of its six octets, the first one highest. So its order
/// is that of the octets, and its text is six pairs of lower case hexadecimal digits with colons.
#[derive(Clone, Copy, Debug, Default, PartialEq, Eq, Hash, PartialOrd, Ord)]
pub struct Mac {
    number: u64,
}

impl Model for Mac {
    ghost Value = { ℕ };

    ghost view = { λ m. m.number };

    ghost invariant = { λ m. m.number < 2 ^ 48 };

    ghost inverse = { λ n. record { number = n } };
}

impl Mac {
    /// Returns the address with this number.
    pub fn new(number: u64) -> Self
        requires { number < 2 ^ 48 }
        ensures { result ≡ number }
    {
        Mac { number }
    }

    /// Returns the address whose six octets are at the front of the slice.
    pub fn from_octets(octets: &[u8]) -> Self
        requires { 6 ≤ length octets.now }
        ensures { result ≡ big_number 6 octets.now }
    {
        Mac {
            number: BigEndian::read_u48(octets),
        }
    }

    /// Returns the number of the six octets.
    pub fn number(self) -> u64
        ensures value { result ≡ self }
        ensures small { result < 2 ^ 48 }
    {
        self.number
    }

    /// Returns the six octets, in the order in which they are sent.
    pub fn octets(self) -> [u8; 6]
        ensures { result ≡ big_bytes 6 self }
    {
        let [_, _, a, b, c, d, e, f] = self.number.to_be_bytes();
        [a, b, c, d, e, f]
    }

    /// Returns `true` if it is a group address: the lowest bit of the first octet is set.
    pub fn is_group(self) -> bool
        ensures { result ≡ is_group self }
    {
        self.number / 0x100_0000_0000 % 2 == 1
    }

    /// Returns `true` if it is one of 01-80-C2-00-00-00 to 01-80-C2-00-00-0F, which bridges don't
    /// forward (IEEE 802.1D-2004, section 7.12).
    pub fn is_reserved(self) -> bool
        ensures { result ≡ is_reserved self }
    {
        0x0180_c200_0000 <= self.number && self.number <= 0x0180_c200_000f
    }

    /// Returns the Bridge Group Address 01-80-C2-00-00-00, which BPDUs are sent to (IEEE
    /// 802.1D-2004, section 7.12).
    pub fn bridge_group() -> Self
        ensures { result ≡ bridge_group }
    {
        Mac {
            number: 0x0180_c200_0000,
        }
    }
}

impl fmt::Display for Mac {
    ghost output = { λ m. Some (mac_text m) };

    fn fmt<W: fmt::Write>(&self, f: &mut fmt::Formatter<W>) -> fmt::Result {
        let [a, b, c, d, e, g] = self.octets();
        write!(f, "{a:02x}:{b:02x}:{c:02x}:{d:02x}:{e:02x}:{g:02x}")
    }
}

/// A VXLAN network identifier (RFC 7348, section 5), of 24 bits. Its text is decimal.
#[derive(Clone, Copy, Debug, Default, PartialEq, Eq, Hash, PartialOrd, Ord)]
pub struct Vni {
    number: u32,
}

impl Model for Vni {
    ghost Value = { ℕ };

    ghost view = { λ v. v.number };

    ghost invariant = { λ v. v.number < 2 ^ 24 };

    ghost inverse = { λ n. record { number = n } };
}

impl Vni {
    /// Returns the identifier with this number.
    pub fn new(number: u32) -> Self
        requires { number < 2 ^ 24 }
        ensures { result ≡ number }
    {
        Vni { number }
    }

    /// Returns the identifier whose three octets are at the front of the slice.
    pub fn from_octets(octets: &[u8]) -> Self
        requires { 3 ≤ length octets.now }
        ensures { result ≡ big_number 3 octets.now }
    {
        Vni {
            number: BigEndian::read_u24(octets),
        }
    }

    /// Returns the number, below 16,777,216.
    pub fn number(self) -> u32
        ensures value { result ≡ self }
        ensures small { result < 2 ^ 24 }
    {
        self.number
    }

    /// Returns the three octets, the highest first.
    pub fn octets(self) -> [u8; 3]
        ensures { result ≡ big_bytes 3 self }
    {
        let [_, a, b, c] = self.number.to_be_bytes();
        [a, b, c]
    }
}

impl fmt::Display for Vni {
    ghost use Rattle.std.specs.Fmt.{decimal};

    ghost output = { λ v. Some (decimal v) };

    fn fmt<W: fmt::Write>(&self, f: &mut fmt::Formatter<W>) -> fmt::Result {
        let number = self.number;
        write!(f, "{number}")
    }
}

/// An IPv4 address, as the number of its four octets, the first one highest. So its order is that
/// of the octets, and its text is four decimal numbers with dots.
#[derive(Clone, Copy, Debug, Default, PartialEq, Eq, Hash, PartialOrd, Ord)]
pub struct Addr {
    number: u32,
}

impl Model for Addr {
    ghost Value = { ℕ };

    ghost view = { λ a. a.number };

    ghost invariant = { λ a. a.number < 2 ^ 32 };

    ghost inverse = { λ n. record { number = n } };
}

impl Addr {
    /// Returns the address with this number.
    pub fn new(number: u32) -> Self
        ensures { result ≡ number }
    {
        Addr { number }
    }

    /// Returns the address whose four octets are at the front of the slice.
    pub fn from_octets(octets: &[u8]) -> Self
        requires { 4 ≤ length octets.now }
        ensures { result ≡ big_number 4 octets.now }
    {
        Addr {
            number: BigEndian::read_u32(octets),
        }
    }

    /// Returns the number of the four octets.
    pub fn number(self) -> u32
        ensures { result ≡ self }
    {
        self.number
    }

    /// Returns the four octets, in the order in which they are sent.
    pub fn octets(self) -> [u8; 4]
        ensures { result ≡ big_bytes 4 self }
    {
        self.number.to_be_bytes()
    }
}

impl fmt::Display for Addr {
    ghost output = { λ a. Some (addr_text a) };

    fn fmt<W: fmt::Write>(&self, f: &mut fmt::Formatter<W>) -> fmt::Result {
        let [a, b, c, d] = self.octets();
        write!(f, "{a}.{b}.{c}.{d}")
    }
}
