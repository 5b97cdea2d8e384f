//! Links that send over UDP sockets and tap devices.
ghost use Rattle.std.specs.Prelude.{◌≡◌, Some, None};
ghost use Rattle.ev_links.specs.Tap.{name_of};
ghost use Rattle.ev_links.specs.WireOut.{destination_of, output_device};
ghost use Rattle.ev_links.specs.Inner.WireOut.{address_for, port_for};

use crate::device_name::DeviceName;
use crate::links::{LinkOut, PromptOut};
use crate::tap::Tap;
use crate::udp::{send_datagram, send_datagram_now};
use ether_wire::{Addr, Device};
use std::net::UdpSocket;

/// The destination of the datagrams that go out of a link.
#[derive(Clone, Copy, Debug, PartialEq, Eq)]
pub enum Destination {
    /// All datagrams go to this address and UDP port.
    Fixed(Addr, u16),
    /// Each datagram goes to its destination address, at this UDP port.
    At(u16),
    /// Each datagram is a frame, and the system receives it from this device.
    Device(DeviceName),
}

/// The destination of the datagrams that go out of a socket.
#[derive(Clone, Copy)]
enum SocketDestination {
    /// All datagrams go to this address and UDP port.
    One(Addr, u16),
    /// Each datagram goes to its destination address, at this UDP port.
    Each(u16),
}

/// Returns the address and the UDP port that a datagram for this address is sent to.
fn where_to(destination: SocketDestination, to: Addr) -> (Addr, u16)
    ensures address { result.0 ≡ address_for destination to }
    ensures port { result.1 ≡ port_for destination }
{
    match destination {
        SocketDestination::One(address, port) => (address, port),
        SocketDestination::Each(port) => (to, port),
    }
}

/// How the datagrams of a link go out.
#[derive(Clone, Copy)]
enum Way<'x> {
    /// Over this socket.
    Datagrams(&'x UdpSocket, SocketDestination),
    /// Over this device.
    Frames(Tap),
}

/// A link that sends datagrams over a socket, or frames over a tap device.
#[derive(Clone, Drop)]
pub struct WireOut<'x> {
    way: Way<'x>,
    failures: u64,
}

impl<'x> WireOut<'x> {
    /// Creates a link that sends all datagrams over this socket to this address and UDP port.
    pub fn fixed(socket: &'x UdpSocket, address: Addr, port: u16) -> Self
        ensures failures { result.failures ≡ 0 }
        ensures device { output_device result ≡ None }
        ensures destination { destination_of result ≡ Destination.Fixed address port }
    {
        WireOut {
            way: Way::Datagrams(socket, SocketDestination::One(address, port)),
            failures: 0,
        }
    }

    /// Creates a link that sends each datagram over this socket to its destination address, at this
    /// UDP port.
    pub fn at(socket: &'x UdpSocket, port: u16) -> Self
        ensures failures { result.failures ≡ 0 }
        ensures device { output_device result ≡ None }
        ensures destination { destination_of result ≡ Destination.At port }
    {
        WireOut {
            way: Way::Datagrams(socket, SocketDestination::Each(port)),
            failures: 0,
        }
    }

    /// Creates a link that sends frames over this device.
    pub fn device(tap: Tap) -> Self
        ensures failures { result.failures ≡ 0 }
        ensures device { output_device result ≡ Some tap }
        ensures destination { destination_of result ≡ Destination.Device (name_of tap) }
    {
        WireOut {
            way: Way::Frames(tap),
            failures: 0,
        }
    }
}

impl LinkOut for WireOut<'_> {
    ghost use Rattle.std.specs.Prelude.{None};

    ghost failed = { λ u. u.failures };

    ghost sent = { λ o. None };

    fn failures(&self) -> u64 {
        self.failures
    }

    fn send(&mut self, to: Addr, octets: &[u8]) -> Result<(), Device> {
        let sent = match self.way {
            Way::Datagrams(socket, destination) => {
                send_datagram(socket, where_to(destination, to), octets)
            }
            Way::Frames(tap) => tap.send(octets),
        };
        if sent.is_err() {
            self.failures += 1;
        }
        sent
    }
}

/// A device takes a frame without waiting only if its descriptor does not block.
impl PromptOut for WireOut<'_> {
    ghost use Rattle.std.specs.Prelude.{None};

    ghost tried = { λ o. None };

    fn send_now(&mut self, to: Addr, octets: &[u8]) -> bool {
        match self.way {
            Way::Datagrams(socket, destination) => {
                send_datagram_now(socket, where_to(destination, to), octets)
            }
            Way::Frames(tap) => tap.send_now(octets),
        }
    }
}
