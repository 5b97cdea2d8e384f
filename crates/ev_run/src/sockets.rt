//! Binds the sockets of a run and finds its devices, and reports which one is of no use.
ghost use Rattle.std.specs.Prelude.{◌≡◌, ◌≤◌, ◌||◌, ◌∷◌, [], false, is_none, vec_len, map, option_map, Some, IfOk, IfErr};
ghost use Rattle.std.specs.List.{cons_option};
ghost use Rattle.ether_wire.specs.Ends.{Puts};
ghost use Rattle.ev_links.specs.DeviceName.{text_of};
ghost use Rattle.ev_run.specs.LinkEnds.{Udp, local_of, remote_of};
ghost use Rattle.ev_run.specs.RunEdges.{why_text, endpoint_text, bind_error_text, no_device_text};
ghost use Rattle.ev_run.specs.Sockets.{tunnel_of, locals_of, remotes_of, endpoints_of, all_ends, all_remotes, lacks_end, lacks_ends, lacks_address, Hinders};
ghost use Rattle.ev_run.specs.Inner.Taps.{tap_named};
ghost use Rattle.ev_run.specs.Inner.Sockets.{attached, local_end, remote_end, bound_at, sent_to};

use crate::bound::{Cable, Sockets};
use crate::needs::devices_of;
use crate::taps::{AttachError, Taps, all_taps, put_attach_error, tap_named};
use arrayvec::ArrayVec;
use ether_wire::{Device, Out, put_addr, put_decimal};
use ev_config::{Config, Endpoint, PortEndpoints};
use ev_edge::EdgeConfig;
use ev_links::{DeviceName, socket_address};
use libc::net::{SO_RCVBUF, SOL_SOCKET, setsockopt};
use std::alloc::{AllocError, Global};
use std::fs::Files;
use std::io;
use std::io::ErrorKind;
use std::net::{Net, UdpSocket};
use std::os::fd::AsRawFd;
use std::time::Duration;

/// The UDP port of tunnels (RFC 7348).
pub(crate) const TUNNELS: u16 = 4789;

/// The size of each socket's receive buffer, in octets: room for some 450 frames of 1,400 octets.
/// A larger one absorbs longer bursts, but at a port that is flooded all its frames wait that long.
const RECEIVE_BUFFER: u32 = 512 << 10;

/// How many milliseconds a send waits for a link that takes nothing. Then it has failed, so that a
/// link that stands still doesn't hold up the end of a run.
const SEND_LIMIT: u64 = 500;

/// The reason why an address can't be bound.
#[derive(Clone, Copy, Debug, PartialEq, Eq)]
pub enum BindError {
    /// Another socket is bound to it.
    InUse,
    /// No device of this host has it.
    NotHere,
    /// This user isn't permitted to bind it.
    Denied,
    /// The system has no memory for the socket.
    NoMemory,
    /// This process has as many descriptors as it is allowed.
    NoDescriptor,
    /// Any other reason.
    Other,
}

/// The reason why a run doesn't begin.
#[derive(Clone, Copy, Debug, PartialEq, Eq)]
pub(crate) enum StartError {
    /// This address can't be bound.
    Unbindable(Endpoint, BindError),
    /// This device can't be used.
    Unattached(DeviceName, AttachError),
    /// A port has no end at which it receives its frames, or none to which it sends them.
    Unnamed,
    /// There is no memory.
    NoMemory,
}

/// Returns the reason that an error of the system means for a bind.
fn bind_error_of(error: &io::Error) -> BindError {
    match error.kind() {
        ErrorKind::AddrInUse => BindError::InUse,
        ErrorKind::AddrNotAvailable => BindError::NotHere,
        ErrorKind::PermissionDenied => BindError::Denied,
        ErrorKind::OutOfMemory => BindError::NoMemory,
        _ if error.raw_os_error() == Some(libc::EMFILE) => BindError::NoDescriptor,
        _ => BindError::Other,
    }
}

impl BindError {
    /// Returns the text of the reason, which follows the address in a message.
    fn reason(self) -> &'static [u8]
        ensures { result.now ≡ why_text self }
    {
        match self {
            BindError::InUse => b"it is in use\n",
            BindError::NotHere => b"no device here has it\n",
            BindError::Denied => b"it isn't permitted\n",
            BindError::NoMemory => b"there is no memory\n",
            BindError::NoDescriptor => b"too many files are open; raise ulimit -n\n",
            BindError::Other => b"the system refuses it\n",
        }
    }
}

/// Writes `ADDRESS:PORT`.
pub(crate) fn put_endpoint<N: Out>(notes: &mut N, at: Endpoint) -> Result<(), Device>
    ensures { Puts (N.end notes.old) (N.end notes.new) (endpoint_text at) result }
{
    put_addr(notes, at.address)?;
    notes.put(b":")?;
    put_decimal(notes, u64::from(at.port))
}

/// Writes which address can't be bound, and why.
pub(crate) fn put_bind_error<N: Out>(
    notes: &mut N,
    at: Endpoint,
    why: BindError,
) -> Result<(), Device>
    ensures { Puts (N.end notes.old) (N.end notes.new) (bind_error_text at why) result }
{
    notes.put(b"can't bind ")?;
    put_endpoint(notes, at)?;
    notes.put(b": ")?;
    notes.put(why.reason())
}

/// Writes the name of a device.
fn put_device<N: Out>(notes: &mut N, name: DeviceName) -> Result<(), Device>
    ensures { Puts (N.end notes.old) (N.end notes.new) (text_of name) result }
{
    notes.put(name.text())
}

/// Writes which device can't be used, and why.
#[tactic(auto, using(ether_wire::proofs::Appending::with_text_twice))]
pub(crate) fn put_no_device<N: Out>(
    notes: &mut N,
    name: DeviceName,
    why: AttachError,
) -> Result<(), Device>
    ensures { Puts (N.end notes.old) (N.end notes.new) (no_device_text name why) result }
{
    notes.put(b"can't use device ")?;
    put_device(notes, name)?;
    put_attach_error(notes, why)
}

/// Returns the endpoint of an edge's tunnels.
pub(crate) fn tunnel_of(edge: &EdgeConfig) -> Endpoint
    ensures { result ≡ tunnel_of edge.now }
{
    Endpoint {
        address: edge.address,
        port: TUNNELS,
    }
}

/// Asks the system for a receive buffer of `RECEIVE_BUFFER` octets. The system grants at most what
/// `net.core.rmem_max` allows. If it refuses, the socket keeps the buffer that it has.
fn enlarge_buffer(socket: &UdpSocket) {
    let mut value = [0u8; 16];
    value[..4].copy_from_slice(&RECEIVE_BUFFER.to_ne_bytes());
    let _ = unsafe { setsockopt(socket.as_raw_fd(), SOL_SOCKET, SO_RCVBUF, &value, 4) };
}

/// Limits how long a send over the socket waits. If the system refuses that, a send waits as long
/// as the link needs.
fn limit_sends(socket: &UdpSocket) {
    let _ = socket.set_write_timeout(Some(Duration::from_millis(SEND_LIMIT)));
}

/// Returns a socket that is bound to this endpoint, with a large receive buffer and limited sends.
fn bind<R: Net>(rt: &R, at: Endpoint) -> Result<UdpSocket, StartError>
    ensures { IfErr result (λ why. Hinders (Udp at ∷ []) false why) }
{
    match UdpSocket::bind(rt, socket_address(at.address, at.port)) {
        Ok(socket) => {
            enlarge_buffer(&socket);
            limit_sends(&socket);
            Ok(socket)
        }
        Err(error) => Err(StartError::Unbindable(at, bind_error_of(&error))),
    }
}

/// Returns the cable of a port over a socket with these ends.
fn bind_socket<R: Net>(
    rt: &R,
    local: Option<Endpoint>,
    remote: Option<Endpoint>,
) -> Result<Cable, StartError>
    ensures local { IfOk result (λ cable. option_map Udp local ≡ Some (local_end cable)) }
    ensures remote { IfOk result (λ cable. option_map Udp remote ≡ Some (remote_end cable)) }
    ensures hindered { IfErr result (λ why.
        Hinders (cons_option (option_map Udp local) []) (is_none local || is_none remote) why) }
{
    let (Some(local), Some(remote)) = (local, remote) else {
        return Err(StartError::Unnamed);
    };
    Ok(Cable::Socket(bind(rt, local)?, local, remote))
}

/// Returns the cable of a port over the device with this name.
fn attach(taps: &Taps, name: DeviceName) -> Result<Cable, StartError>
    ensures { result ≡ attached name taps.now.others (tap_named taps.now.found.items name) }
{
    match tap_named(taps.found.as_slice(), name) {
        Some(tap) => Ok(Cable::Tap(tap)),
        None => Err(StartError::Unattached(name, taps.others)),
    }
}

/// Returns the cable of a port with these ends.
fn cable_of<R: Net>(rt: &R, taps: &Taps, link: PortEndpoints) -> Result<Cable, StartError>
    ensures local { IfOk result (λ cable. local_of link ≡ Some (local_end cable)) }
    ensures remote { IfOk result (λ cable. remote_of link ≡ Some (remote_end cable)) }
    ensures hindered { IfErr result
        (λ why. Hinders (cons_option (local_of link) []) (lacks_end link) why) }
{
    match link.device {
        Some(name) => attach(taps, name),
        None => bind_socket(rt, link.local, link.remote),
    }
}

/// Returns the cables of one edge's ports.
fn bind_ports<R: Net>(
    rt: &R,
    alloc: Global,
    taps: &Taps,
    links: &ArrayVec<PortEndpoints, 64>,
) -> Result<Vec<Cable>, StartError>
    ensures few { IfOk result (λ ports. vec_len ports ≤ 64) }
    ensures bound { IfOk result
        (λ ports. map local_end ports.items ≡ locals_of links.now.items) }
    ensures remotes { IfOk result
        (λ ports. map remote_end ports.items ≡ remotes_of links.now.items) }
    ensures whole { IfOk result (λ ports. lacks_ends links.now.items ≡ false) }
    ensures hindered { IfErr result
        (λ why. Hinders (locals_of links.now.items) (lacks_ends links.now.items) why) }
{
    let links = links.as_slice();
    let Ok(mut ports) = Vec::with_capacity(alloc, links.len()) else {
        return Err(StartError::NoMemory);
    };
    for link in links {
        ports.push_reserved(cable_of(rt, taps, *link)?);
    }
    Ok(ports)
}

/// Returns the devices of which this process has descriptors, if a port is a device.
fn taps_for<R: Files>(rt: &R, alloc: Global, config: &Config) -> Result<Taps, AllocError> {
    if devices_of(config.links.as_slice()) == 0 {
        return Ok(Taps::none(alloc));
    }
    all_taps(rt, alloc)
}

/// Returns the bound sockets and the devices of all edges.
pub(crate) fn bind_all<R: Net + Files>(
    rt: &R,
    alloc: Global,
    config: &Config,
) -> Result<Vec<Sockets>, StartError>
    ensures all { IfOk result (λ all. vec_len all ≡ vec_len config.now.edges) }
    ensures bound { IfOk result (λ all. map bound_at all.items ≡ endpoints_of config.now) }
    ensures remotes { IfOk result
        (λ all. map sent_to all.items ≡ all_remotes config.now.links.items) }
    ensures whole { IfOk result (λ all. lacks_address config.now ≡ false) }
    ensures hindered { IfErr result
        (λ why. Hinders (all_ends config.now) (lacks_address config.now) why) }
{
    let Ok(taps) = taps_for(rt, alloc, config) else {
        return Err(StartError::NoMemory);
    };
    let Ok(mut all) = Vec::with_capacity(alloc, config.edges.len()) else {
        return Err(StartError::NoMemory);
    };
    for (edge, links) in config.edges.iter().zip(config.links.iter()) {
        let at = tunnel_of(edge);
        let sockets = Sockets {
            tunnel: bind(rt, at)?,
            at,
            ports: bind_ports(rt, alloc, &taps, links)?,
        };
        if all.push(sockets).is_err() {
            return Err(StartError::NoMemory);
        }
    }
    Ok(all)
}
