//! Datagrams over UDP sockets.
ghost use Rattle.std.specs.Int.{w16, w32, to_be_bytes};
ghost use Rattle.std.specs.Prelude.{◌≡◌, ◌≤◌, ◌∷◌, ◌++◌, length, take, IfOk};
ghost use Rattle.std.specs.Net.Addr.{IsIpv4OfBits, IsV4And, MatchIp, ipv4_bits};
ghost use Rattle.std.specs.Net.Socket.{socket_ip, socket_port};

use ether_wire::{Addr, Device};
use libc::net::{MSG_DONTWAIT, MSG_NOSIGNAL, MSG_PEEK, recv, sendto};
use std::io;
use std::net::{IpAddr, Ipv4Addr, SocketAddr, UdpSocket};
use std::os::fd::AsRawFd;
use std::time::Duration;

/// Returns an address and a UDP port as a socket address of the system.
pub fn socket_address(address: Addr, port: u16) -> SocketAddr
    ensures ip { IsV4And (socket_ip result) (λ ip. IsIpv4OfBits ip address) }
    ensures port { socket_port result ≡ port }
{
    SocketAddr::new(IpAddr::V4(Ipv4Addr::from_bits(address.number())), port)
}

/// Returns the IPv4 address of a sender, or 0.0.0.0 if it has none.
fn address_of(from: SocketAddr) -> Addr
    ensures { MatchIp (socket_ip from) (λ ip. result ≡ ipv4_bits ip) (λ ip. result ≡ 0) }
{
    match from.ip() {
        IpAddr::V4(ip) => Addr::new(ip.to_bits()),
        IpAddr::V6(_) => Addr::new(0),
    }
}

/// Returns `true` if a datagram waits at a socket. It stays there.
pub(crate) fn has_datagram(socket: &UdpSocket) -> bool {
    let mut first = [0u8; 1];
    unsafe { recv(socket.as_raw_fd(), &mut first, MSG_PEEK | MSG_DONTWAIT) >= 0 }
}

/// Waits for a datagram. If none comes for as long as a read of the socket waits, returns an empty
/// one.
pub(crate) fn recv_datagram(socket: &UdpSocket, buffer: &mut [u8]) -> Result<(usize, Addr), Device>
    ensures { IfOk result (λ r. r.0 ≤ length buffer.new) }
{
    match socket.recv_from(buffer) {
        Ok((size, from)) => Ok((size, address_of(from))),
        Err(error) if error.kind() == io::ErrorKind::WouldBlock => Ok((0, Addr::default())),
        Err(_) => Err(Device),
    }
}

/// Sets how long a read of the socket waits: for ever if `limit` is `None`.
fn limit(socket: &UdpSocket, limit: Option<Duration>) -> Result<(), Device> {
    match socket.set_read_timeout(limit) {
        Ok(()) => Ok(()),
        Err(_) => Err(Device),
    }
}

/// Waits for a datagram for at most a millisecond. If none comes, returns an empty one.
pub(crate) fn recv_soon(socket: &UdpSocket, buffer: &mut [u8]) -> Result<(usize, Addr), Device>
    ensures { IfOk result (λ r. r.0 ≤ length buffer.new) }
{
    limit(socket, Some(Duration::from_millis(1)))?;
    let got = recv_datagram(socket, buffer)?;
    limit(socket, None)?;
    Ok(got)
}

/// The size of the system's form of an IPv4 address and a UDP port (`sockaddr_in`).
const ADDRESS_SIZE: u32 = 16;

/// Returns the system's form of an IPv4 address and a UDP port: the family AF_INET, which is 2,
/// with the low octet first, and then the port and the address, each with the high octet first.
fn system_address(address: Addr, port: u16) -> [u8; 128]
    ensures { take 8 result ≡ 2 ∷ 0 ∷ to_be_bytes w16 port ++ to_be_bytes w32 address }
{
    let [high, low] = port.to_be_bytes();
    let [a, b, c, d] = address.number().to_be_bytes();
    let mut form = [0u8; 128];
    form[..8].copy_from_slice(&[2, 0, high, low, a, b, c, d]);
    form
}

/// Sends a datagram to an address and a UDP port. Waits for as long as a send over the socket does.
pub(crate) fn send_datagram(
    socket: &UdpSocket,
    (address, port): (Addr, u16),
    octets: &[u8],
) -> Result<(), Device> {
    match socket.send_to(octets, socket_address(address, port)) {
        Ok(_) => Ok(()),
        Err(_) => Err(Device),
    }
}

/// Sends a datagram to an address and a UDP port without waiting. Returns `true` if it was sent.
pub(crate) fn send_datagram_now(
    socket: &UdpSocket,
    (address, port): (Addr, u16),
    octets: &[u8],
) -> bool {
    let to = system_address(address, port);
    let flags = MSG_NOSIGNAL | MSG_DONTWAIT;
    unsafe { sendto(socket.as_raw_fd(), octets, flags, &to, ADDRESS_SIZE) >= 0 }
}
