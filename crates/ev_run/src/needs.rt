//! The resources that a run takes at its beginning.
ghost use Rattle.std.specs.Prelude.{◌≡◌, ◌≤◌, length};
ghost use Rattle.std.specs.List.{filter};
ghost use Rattle.ev_run.specs.Needs.{edge_threads, edge_sockets, edge_memory, with_edge, edges_needs, is_device, devices_of, needs_of, sockets_of, threads_of};

use arrayvec::ArrayVec;
use ev_config::{Config, PortEndpoints};
use ev_edge::EdgeConfig;

/// The resources that a run takes at its beginning.
#[derive(Clone, Copy, Debug, PartialEq, Eq)]
pub struct Needs {
    /// The number of threads, those of standard input and standard error among them.
    pub threads: u64,
    /// The number of UDP sockets that the run binds.
    pub sockets: u64,
    /// The number of ports that are devices.
    pub devices: u64,
    /// The approximate number of octets of memory, as measured in runs.
    pub memory: u64,
}

/// The most sockets that clients take while they query a run: the socket to which they connect, two
/// for each of 8 clients, and one of a client for which no seat is free.
const CLIENT_SOCKETS: u64 = 18;

/// Returns the number of threads of an edge: two for each port and two for the tunnel, of which one
/// receives and one sends; one for the clock, one for the updates of other edges, and the edge's
/// own.
fn edge_threads(edge: &EdgeConfig) -> u64
    ensures value { result ≡ edge_threads edge.now }
    ensures few { result ≤ 133 }
{
    2 * edge.ports.len() as u64 + 5
}

/// Returns the number of descriptors of an edge: one for the tunnel, and one for each port.
fn edge_sockets(edge: &EdgeConfig) -> u64
    ensures { result ≡ edge_sockets edge.now }
{
    edge.ports.len() as u64 + 1
}

/// Returns the approximate number of octets of memory that an edge takes: its own, its threads',
/// and its learning table's.
fn edge_memory(edge: &EdgeConfig) -> u64
    ensures { result ≡ edge_memory edge.now }
{
    let places = (edge.capacity as u64).min(65_536);
    let buckets = (edge.buckets as u64).min(65_536);
    512_000 + 98_304 * edge_threads(edge) + (68 * places + 12 * buckets)
}

impl Needs {
    /// Returns these needs with one edge more.
    fn with(self, edge: &EdgeConfig) -> Needs
        ensures { result ≡ with_edge self edge.now }
    {
        Needs {
            threads: self.threads.saturating_add(edge_threads(edge)),
            sockets: self.sockets.saturating_add(edge_sockets(edge)),
            devices: self.devices,
            memory: self.memory.saturating_add(edge_memory(edge)),
        }
    }
}

/// Returns the resources that a run of these edges takes if each port is a socket.
fn edges_needs(edges: &[EdgeConfig]) -> Needs
    ensures { result ≡ edges_needs edges.now }
{
    let mut needs = Needs {
        threads: 2,
        sockets: 0,
        devices: 0,
        memory: 2_351_104,
    };
    for edge in edges {
        needs = needs.with(edge);
    }
    needs
}

/// Returns the number of these ports that are devices.
fn devices_in(links: &[PortEndpoints]) -> u64
    ensures { result ≡ length (filter is_device links.now) }
{
    links.iter().filter(|link| link.device.is_some()).count() as u64
}

/// Returns the number of ports of these edges that are devices.
pub(crate) fn devices_of(all: &[ArrayVec<PortEndpoints, 64>]) -> u64
    ensures { result ≡ devices_of all.now }
{
    let mut devices: u64 = 0;
    for links in all {
        devices = devices.saturating_add(devices_in(links.as_slice()));
    }
    devices
}

/// Returns the resources that a run of a configuration takes at its beginning.
pub fn needs_of(config: &Config) -> Needs
    ensures { result ≡ needs_of config.now.edges.items config.now.links.items }
{
    let needs = edges_needs(config.edges.as_slice());
    let devices = devices_of(config.links.as_slice());
    Needs {
        threads: needs.threads,
        sockets: needs.sockets.saturating_sub(devices),
        devices,
        memory: needs.memory,
    }
}

/// Returns the most descriptors that the links of a run have, with those of clients if `is_asked`.
pub fn sockets_of(config: &Config, is_asked: bool) -> u64
    ensures { result ≡ sockets_of is_asked config.now.edges.items }
{
    let sockets = edges_needs(config.edges.as_slice()).sockets;
    if is_asked {
        sockets.saturating_add(CLIENT_SOCKETS)
    } else {
        sockets
    }
}

/// Returns the number of threads with which a run begins. If `is_asked`, two more: one accepts
/// clients, and one watches the sessions with edges elsewhere.
pub(crate) fn threads_of(config: &Config, is_asked: bool) -> u64
    ensures { result ≡ threads_of is_asked config.now.edges.items }
{
    let threads = edges_needs(config.edges.as_slice()).threads;
    if is_asked {
        threads.saturating_add(2)
    } else {
        threads
    }
}
