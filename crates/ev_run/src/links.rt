//! The links of an edge over the sockets and devices of a run.
#![tactic(auto, using(ether_wire::proofs::Appending::with_text_twice, ether_wire::proofs::Appending::with_text_none))]

ghost use Rattle.std.specs.Prelude.{◌≡◌, ◌+◌, ◌≤◌, ◌++◌, ◌∷◌, [], map, vec_len, vec_capacity, IfOk};
ghost use Rattle.ev_links.specs.Wire.{input_device};
ghost use Rattle.ev_links.specs.WireOut.{destination_of, output_device};
ghost use Rattle.ev_links.specs.declared.wire_out.Destination.TheVariants.{At};
ghost use Rattle.ev_run.specs.Inner.Sockets.{link_of, to_remote, tap_of, devices_of, own_devices};

use crate::bound::{Cable, Sockets};
use crate::sockets::TUNNELS;
use ev_links::{Wire, WireOut};
use ev_peers::{EdgeLinks, Link};
use std::alloc::{AllocError, Global};
use std::sync::atomic::AtomicBool;
use std::time::Clock;

/// Returns the receiving direction of a port's link.
fn port_input<'x, R: Clock>(rt: &'x R, cable: &'x Cable, stop: &'x AtomicBool) -> Wire<'x, R>
    ensures { input_device result ≡ tap_of cable.now }
{
    match cable {
        Cable::Socket(socket, _, _) => Wire::port(rt, socket, stop),
        Cable::Tap(tap) => Wire::device(rt, *tap, stop),
    }
}

/// Returns the sending direction of a port's link: it sends to the port's remote end.
fn port_output(cable: &Cable) -> WireOut<'_>
    ensures destination { destination_of result ≡ to_remote cable.now }
    ensures device { output_device result ≡ tap_of cable.now }
{
    match cable {
        Cable::Socket(socket, _, remote) => WireOut::fixed(socket, remote.address, remote.port),
        Cable::Tap(tap) => WireOut::device(*tap),
    }
}

/// Returns these links and one more, for which there is room.
fn with_link<I: Drop, O: Drop>(links: Vec<Link<I, O>>, input: I, output: O) -> Vec<Link<I, O>>
    requires { vec_len links + 1 ≤ vec_capacity links }
    ensures items { result.items ≡ links.items ++ link_of input output ∷ [] }
    ensures len { vec_len result ≡ vec_len links + 1 }
    ensures room { vec_capacity result ≡ vec_capacity links }
{
    let mut links = links;
    links.push_reserved(Link { input, output });
    links
}

/// Returns the links over these cables and this socket. Each port sends to its remote end, a port
/// with a device receives from it, and the tunnels send to their UDP port.
pub(crate) fn links_of<'x, R: Clock>(
    rt: &'x R,
    alloc: Global,
    sockets: &'x Sockets,
    stop: &'x AtomicBool,
) -> Result<EdgeLinks<Wire<'x, R>, WireOut<'x>>, AllocError>
    ensures few { IfOk result (λ links. vec_len links.ports ≤ 64) }
    ensures ports { IfOk result (λ links. map (λ link. destination_of link.output) links.ports.items
        ≡ map to_remote sockets.now.ports.items) }
    ensures devices { IfOk result
        (λ links. map devices_of links.ports.items ≡ map own_devices sockets.now.ports.items) }
    ensures tunnel { IfOk result (λ links. destination_of links.tunnel.output ≡ At 4789) }
{
    let mut ports = Vec::with_capacity(alloc, sockets.ports.len())?;
    for cable in sockets.ports.as_slice() {
        let input = port_input(rt, cable, stop);
        ports = with_link(ports, input, port_output(cable));
    }
    let tunnel = Link {
        input: Wire::socket(rt, &sockets.tunnel, stop),
        output: WireOut::at(&sockets.tunnel, TUNNELS),
    };
    Ok(EdgeLinks {
        ports,
        tunnel,
        clock: Wire::clock(rt, stop),
    })
}
