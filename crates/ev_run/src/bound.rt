//! The cables and sockets of a run, and how their reads end.
ghost use Rattle.std.specs.Prelude.{◌≤◌, vec_len};

use ev_config::Endpoint;
use ev_links::Tap;
use libc::net::{SHUT_RD, shutdown};
use std::net::UdpSocket;
use std::os::fd::AsRawFd;

/// The cable of a port.
#[derive(Drop)]
pub(crate) enum Cable {
    /// A socket: it is bound to the first endpoint, at which the port receives its frames. The port
    /// sends them to the second one.
    Socket(UdpSocket, Endpoint, Endpoint),
    /// A tap device.
    Tap(Tap),
}

/// The cables of an edge, and the socket of its tunnels.
#[derive(Drop)]
pub(crate) struct Sockets {
    /// The socket of the edge's tunnels.
    pub(crate) tunnel: UdpSocket,
    /// The endpoint to which that socket is bound.
    pub(crate) at: Endpoint,
    /// The cables of the edge's ports, port 1 first.
    pub(crate) ports: Vec<Cable>,
    ghost few: { vec_len ports ≤ 64 },
}

/// Ends the reads of a socket, so that its reader returns: a read that waits gets nothing, and so
/// does each later read. Sends still work. No datagram is sent for it, so the socket's address may
/// have gone.
fn end_reads(socket: &UdpSocket) {
    // The system ends the reads and reports that the socket has no peer (ENOTCONN).
    let _ = shutdown(socket.as_raw_fd(), SHUT_RD);
}

/// Ends the reads of all sockets. A read of a device ends within a second by itself.
pub(crate) fn end_all_reads(all: &[Sockets]) {
    for sockets in all {
        end_reads(&sockets.tunnel);
        end_port_reads(sockets.ports.as_slice());
    }
}

/// Ends the reads of the ports' sockets.
fn end_port_reads(ports: &[Cable]) {
    for cable in ports {
        if let Cable::Socket(socket, _, _) = cable {
            end_reads(socket);
        }
    }
}
