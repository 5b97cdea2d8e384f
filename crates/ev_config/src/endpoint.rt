//! What serves as a port's cable: a link's endpoints, or a device.
ghost use Rattle.std.specs.Prelude.{◌≡◌, Some};
ghost use Rattle.ether_wire.specs.Parse.{decimal_of_text};
ghost use Rattle.ev_config.specs.Endpoint.{endpoint_of_text};

use ether_wire::{Addr, parted, read_decimal};
use ev_links::DeviceName;

/// A UDP endpoint.
#[derive(Clone, Copy, Debug, PartialEq, Eq)]
pub struct Endpoint {
    /// Its IPv4 address.
    pub address: Addr,
    /// Its UDP port.
    pub port: u16,
}

/// What serves as a port's cable: the two ends of a link, or a device.
#[derive(Clone, Copy, Debug, Default, PartialEq, Eq)]
pub struct PortEndpoints {
    /// The address at which the port receives frames.
    pub local: Option<Endpoint>,
    /// The address to which it sends them.
    pub remote: Option<Endpoint>,
    /// The device with which the port exchanges frames.
    pub device: Option<DeviceName>,
}

/// Returns the UDP port that the text spells in decimal.
fn read_udp_port(text: &[u8]) -> Option<u16>
    ensures { result ≡ decimal_of_text 65535 text.now }
{
    let number = read_decimal(text, 65535)?;
    Some(number as u16)
}

/// Returns the endpoint that the text spells: an IPv4 address, a colon, a UDP port.
pub(crate) fn read_endpoint(text: &[u8]) -> Option<Endpoint>
    ensures { result ≡ endpoint_of_text text.now }
{
    let (address, port) = parted(b':', text)?;
    let address = Addr::read_text(address)?;
    let port = read_udp_port(port)?;
    Some(Endpoint { address, port })
}
