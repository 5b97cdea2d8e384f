//! The text of IP addresses and keys, in the words of a report.
ghost use Rattle.std.specs.Prelude.{Some};
ghost use Rattle.ether_wire.specs.Addr.{hex_group};
ghost use Rattle.route_wire.specs.Text.{groups_text, addr6_text, ip_text, key_text};

use crate::update::{Addr6, Ip, Key};
use std::fmt;

/// Two octets of an IPv6 address: four lower case hexadecimal digits.
#[derive(Clone, Copy)]
struct HexGroup(u16);

impl fmt::Display for HexGroup {
    ghost output = { λ g. Some (hex_group g.0) };

    fn fmt<W: fmt::Write>(&self, f: &mut fmt::Formatter<W>) -> fmt::Result {
        let high = self.0 / 0x100 % 0x100;
        let low = self.0 % 0x100;
        write!(f, "{high:02x}{low:02x}")
    }
}

/// One half of an IPv6 address: four groups with colons.
#[derive(Clone, Copy)]
struct Half(u64);

impl fmt::Display for Half {
    ghost output = { λ h. Some (groups_text h.0) };

    #[tactic(auto, unfolding(crate::specs::Text::groups_text))]
    fn fmt<W: fmt::Write>(&self, f: &mut fmt::Formatter<W>) -> fmt::Result {
        let a = HexGroup((self.0 / 0x1_0000_0000_0000 % 0x1_0000) as u16);
        let b = HexGroup((self.0 / 0x1_0000_0000 % 0x1_0000) as u16);
        let c = HexGroup((self.0 / 0x1_0000 % 0x1_0000) as u16);
        let d = HexGroup((self.0 % 0x1_0000) as u16);
        write!(f, "{a}:{b}:{c}:{d}")
    }
}

/// Eight groups of four lower case hexadecimal digits with colons, never shortened.
impl fmt::Display for Addr6 {
    ghost output = { λ a. Some (addr6_text a) };

    fn fmt<W: fmt::Write>(&self, f: &mut fmt::Formatter<W>) -> fmt::Result {
        let number = self.number();
        let high = Half((number / 0x1_0000_0000_0000_0000) as u64);
        let low = Half((number % 0x1_0000_0000_0000_0000) as u64);
        write!(f, "{high}:{low}")
    }
}

/// The text of the address.
impl fmt::Display for Ip {
    ghost output = { λ i. Some (ip_text i) };

    fn fmt<W: fmt::Write>(&self, f: &mut fmt::Formatter<W>) -> fmt::Result {
        match self {
            Ip::V4(address) => write!(f, "{address}"),
            Ip::V6(address) => write!(f, "{address}"),
        }
    }
}

/// Writes `flood VNI`, or `mac VNI MAC` and then ` ip IP` if the key has an IP address.
impl fmt::Display for Key {
    ghost output = { λ k. Some (key_text k) };

    fn fmt<W: fmt::Write>(&self, f: &mut fmt::Formatter<W>) -> fmt::Result {
        match self {
            Key::Flood(vni) => write!(f, "flood {vni}"),
            Key::Mac(vni, mac, None) => write!(f, "mac {vni} {mac}"),
            Key::Mac(vni, mac, Some(ip)) => write!(f, "mac {vni} {mac} ip {ip}"),
        }
    }
}
