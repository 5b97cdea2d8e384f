//! The parts of a configuration that no run can use: sockets that can't all be bound, and addresses
//! to which nothing can be sent.
ghost use Rattle.std.specs.Prelude.{◌≡◌, ◌==◌, ◌||◌, ◌++◌, OnOk, IfOk};
ghost use Rattle.std.specs.List.{list_any};
ghost use Rattle.ev_run.specs.Obstacles.{clashes, is_tunnel, is_local, local_cause, remote_cause, useless, local_obstacles, remote_obstacles, port_obstacles, ports_obstacles, all_ports_obstacles, edge_obstacles, count_obstacles, thread_obstacles, limit_obstacles, obstacles_of};
ghost use Rattle.ev_view.specs.EdgeViews.{each_from};

use crate::needs::{sockets_of, threads_of};
use crate::sockets::tunnel_of;
use arrayvec::ArrayVec;
use ether_wire::Addr;
use ev_config::{Config, Endpoint, PortEndpoints};
use ev_edge::EdgeConfig;
use std::alloc::{AllocError, Global};

/// An end of a port's link.
#[derive(Clone, Copy, Debug, PartialEq, Eq)]
pub enum End {
    /// The end at which the port receives its frames.
    Local,
    /// The end to which the port sends its frames.
    Remote,
}

/// The reason why an end is of no use.
#[derive(Clone, Copy, Debug, PartialEq, Eq)]
pub enum Cause {
    /// Its UDP port is 0.
    NoPort,
    /// Its address is 0.0.0.0.
    NoHost,
    /// An edge has its tunnels there.
    Tunnel,
    /// An earlier port receives its frames there.
    Taken,
}

/// A port of an edge. Both numbers count from 1.
#[derive(Clone, Copy, Debug, PartialEq, Eq)]
pub struct EdgePort {
    /// The number of the edge.
    pub edge: u64,
    /// The number of the port.
    pub port: u64,
}

/// A part of a configuration that no run can use.
#[derive(Clone, Copy, Debug, PartialEq, Eq, Drop)]
pub enum Obstacle {
    /// The address of the edge with this number is 0.0.0.0.
    Unheard(u64),
    /// This end of a port is of no use.
    Useless(EdgePort, End, Endpoint, Cause),
    /// The first number is that of the sockets. The second is that of the descriptors that are
    /// allowed, which are too few.
    TooMany(u64, u64),
    /// The first number is that of the threads with which a run begins. The second is that of the
    /// threads that are allowed, which are too few.
    TooManyThreads(u64, u64),
}

/// The limits of the process, as far as they are known.
#[derive(Clone, Copy, Debug, PartialEq, Eq)]
pub struct ProcessLimits {
    /// The number of descriptors that the process may have.
    pub descriptors: Option<u64>,
    /// The number of threads that all processes of its user may have together.
    pub threads: Option<u64>,
}

/// The ends with which the ends of a port are compared.
#[derive(Clone, Copy)]
struct OtherEnds<'a> {
    /// All edges.
    edges: &'a [EdgeConfig],
    /// The links of the edges before its own.
    before: &'a [ArrayVec<PortEndpoints, 64>],
    /// The links of the ports before it.
    ports: &'a [PortEndpoints],
}

/// Returns `true` if an address is 0.0.0.0.
fn is_nobody(address: Addr) -> bool
    ensures { result ≡ (address == 0) }
{
    address.number() == 0
}

/// Returns `true` if two sockets clash: they have the same UDP port, and either the same address,
/// or one of them all addresses.
fn clashes(a: &Endpoint, b: &Endpoint) -> bool
    ensures { result ≡ clashes a.now b.now }
{
    a.port == b.port && (a.address == b.address || is_nobody(a.address) || is_nobody(b.address))
}

/// Returns `true` if the tunnels of an edge clash with this endpoint.
fn is_tunnel(edges: &[EdgeConfig], at: &Endpoint) -> bool
    ensures { result ≡ is_tunnel edges.now at.now }
{
    for edge in edges {
        if clashes(&tunnel_of(edge), at) {
            return true;
        }
    }
    false
}

/// Returns `true` if the local end of a port clashes with this endpoint.
fn is_local(at: &Endpoint, link: &PortEndpoints) -> bool
    ensures { result ≡ is_local at.now link.now }
{
    match &link.local {
        Some(local) => clashes(local, at),
        None => false,
    }
}

/// Returns `true` if the local end of one of these ports clashes with this endpoint.
fn has_local(ports: &[PortEndpoints], at: &Endpoint) -> bool
    ensures { result ≡ list_any (is_local at.now) ports.now }
{
    for link in ports {
        if is_local(at, link) {
            return true;
        }
    }
    false
}

/// Returns `true` if the local end of a port of one of these edges clashes with this endpoint.
fn is_before(before: &[ArrayVec<PortEndpoints, 64>], at: &Endpoint) -> bool
    ensures { result ≡ list_any (λ links. list_any (is_local at.now) links.items) before.now }
{
    for links in before {
        if has_local(links.as_slice(), at) {
            return true;
        }
    }
    false
}

/// Returns why a port can't receive its frames at this endpoint, or `None` if it can.
fn local_cause(others: &OtherEnds<'_>, at: &Endpoint) -> Option<Cause>
    ensures { result ≡ local_cause others.now.edges.now others.now.before.now others.now.ports.now
        at.now }
{
    if at.port == 0 {
        return Some(Cause::NoPort);
    }
    if is_tunnel(others.edges, at) {
        return Some(Cause::Tunnel);
    }
    if is_before(others.before, at) || has_local(others.ports, at) {
        return Some(Cause::Taken);
    }
    None
}

/// Returns why a port can't send its frames to this endpoint, or `None` if it can.
fn remote_cause(at: &Endpoint) -> Option<Cause>
    ensures { result ≡ remote_cause at.now }
{
    if at.port == 0 {
        return Some(Cause::NoPort);
    }
    if is_nobody(at.address) {
        return Some(Cause::NoHost);
    }
    None
}

/// Adds an end of a port if there is a cause why it is of no use.
fn add_useless(
    found: &mut Vec<Obstacle>,
    seat: EdgePort,
    end: End,
    at: Endpoint,
    cause: Option<Cause>,
) -> Result<(), AllocError>
    ensures { OnOk result (found.new.items ≡ found.old.items ++ useless seat end at cause) }
{
    match cause {
        None => Ok(()),
        Some(cause) => Ok(found.push(Obstacle::Useless(seat, end, at, cause))?),
    }
}

/// Adds the local end of a port if it is of no use.
fn add_local(
    found: &mut Vec<Obstacle>,
    others: &OtherEnds<'_>,
    seat: EdgePort,
    local: Option<Endpoint>,
) -> Result<(), AllocError>
    ensures { OnOk result (found.new.items ≡ found.old.items ++ local_obstacles
        others.now.edges.now others.now.before.now others.now.ports.now seat local) }
{
    match local {
        None => Ok(()),
        Some(at) => {
            let cause = local_cause(others, &at);
            add_useless(found, seat, End::Local, at, cause)
        }
    }
}

/// Adds the remote end of a port if it is of no use.
fn add_remote(
    found: &mut Vec<Obstacle>,
    seat: EdgePort,
    remote: Option<Endpoint>,
) -> Result<(), AllocError>
    ensures { OnOk result (found.new.items ≡ found.old.items ++ remote_obstacles seat remote) }
{
    match remote {
        None => Ok(()),
        Some(at) => {
            let cause = remote_cause(&at);
            add_useless(found, seat, End::Remote, at, cause)
        }
    }
}

/// Adds the ends of a port that are of no use.
fn add_port(
    found: &mut Vec<Obstacle>,
    others: &OtherEnds<'_>,
    seat: EdgePort,
    link: &PortEndpoints,
) -> Result<(), AllocError>
    ensures { OnOk result (found.new.items ≡ found.old.items ++ port_obstacles
        others.now.edges.now others.now.before.now others.now.ports.now seat link.now) }
{
    add_local(found, others, seat, link.local)?;
    add_remote(found, seat, link.remote)
}

/// Adds the useless ends of an edge's ports. `before` has the links of the edges before that edge.
fn add_ports(
    found: &mut Vec<Obstacle>,
    edges: &[EdgeConfig],
    before: &[ArrayVec<PortEndpoints, 64>],
    links: &[PortEndpoints],
) -> Result<(), AllocError>
    ensures { OnOk result (found.new.items ≡ found.old.items
        ++ ports_obstacles edges.now before.now links.now) }
{
    for (place, link) in links.iter().enumerate() {
        let (ports, _) = links.split_at(place);
        let others = OtherEnds {
            edges,
            before,
            ports,
        };
        let seat = EdgePort {
            edge: before.len() as u64 + 1,
            port: place as u64 + 1,
        };
        add_port(found, &others, seat, link)?;
    }
    Ok(())
}

/// Adds the ends of all ports that are of no use.
fn add_all_ports(
    found: &mut Vec<Obstacle>,
    edges: &[EdgeConfig],
    all: &[ArrayVec<PortEndpoints, 64>],
) -> Result<(), AllocError>
    ensures { OnOk result (found.new.items ≡ found.old.items
        ++ all_ports_obstacles edges.now all.now) }
{
    for (place, links) in all.iter().enumerate() {
        let (before, _) = all.split_at(place);
        add_ports(found, edges, before, links.as_slice())?;
    }
    Ok(())
}

/// Adds an edge if its address is 0.0.0.0: its datagrams come from a different address.
fn add_edge(found: &mut Vec<Obstacle>, number: u64, edge: &EdgeConfig) -> Result<(), AllocError>
    ensures { OnOk result (found.new.items ≡ found.old.items ++ edge_obstacles number edge.now) }
{
    if !is_nobody(edge.address) {
        return Ok(());
    }
    Ok(found.push(Obstacle::Unheard(number))?)
}

/// Adds the edges whose address is 0.0.0.0.
fn add_edges(found: &mut Vec<Obstacle>, edges: &[EdgeConfig]) -> Result<(), AllocError>
    ensures { OnOk result (found.new.items ≡ found.old.items
        ++ each_from edge_obstacles 1 edges.now) }
{
    for (place, edge) in edges.iter().enumerate() {
        add_edge(found, place as u64 + 1, edge)?;
    }
    Ok(())
}

/// Adds that the sockets and the three standard streams take more descriptors than are allowed, if
/// that limit is known.
fn add_count(found: &mut Vec<Obstacle>, sockets: u64, most: Option<u64>) -> Result<(), AllocError>
    ensures { OnOk result (found.new.items ≡ found.old.items ++ count_obstacles sockets most) }
{
    match most {
        Some(most) if sockets > most.saturating_sub(3) => {
            Ok(found.push(Obstacle::TooMany(sockets, most))?)
        }
        _ => Ok(()),
    }
}

/// Adds that a run begins with more threads than are allowed, if that limit is known.
fn add_threads(found: &mut Vec<Obstacle>, threads: u64, most: Option<u64>) -> Result<(), AllocError>
    ensures { OnOk result (found.new.items ≡ found.old.items ++ thread_obstacles threads most) }
{
    match most {
        Some(most) if threads > most => Ok(found.push(Obstacle::TooManyThreads(threads, most))?),
        _ => Ok(()),
    }
}

/// Adds the limits that are too low for a run, which clients may query if `is_asked`.
fn add_limits(
    found: &mut Vec<Obstacle>,
    config: &Config,
    is_asked: bool,
    limits: ProcessLimits,
) -> Result<(), AllocError>
    ensures { OnOk result (found.new.items ≡ found.old.items
        ++ limit_obstacles config.now.edges.items is_asked limits) }
{
    add_count(found, sockets_of(config, is_asked), limits.descriptors)?;
    add_threads(found, threads_of(config, is_asked), limits.threads)
}

/// Returns the parts of a configuration that no run can use, in its order, and the limits that are
/// too low for it. If `is_asked`, clients may query the run.
///
/// # Errors
///
/// `AllocError` if memory is refused.
pub fn obstacles_of(
    alloc: Global,
    config: &Config,
    is_asked: bool,
    limits: ProcessLimits,
) -> Result<Vec<Obstacle>, AllocError>
    ensures { IfOk result (λ found. found.items
        ≡ obstacles_of config.now.edges.items config.now.links.items is_asked limits) }
{
    let mut found = Vec::new(alloc);
    add_edges(&mut found, config.edges.as_slice())?;
    add_all_ports(&mut found, config.edges.as_slice(), config.links.as_slice())?;
    add_limits(&mut found, config, is_asked, limits)?;
    Ok(found)
}
