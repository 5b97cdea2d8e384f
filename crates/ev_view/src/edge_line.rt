//! The line of an edge: its number and address, its ports and networks.
#![tactic(auto, using(ether_wire::proofs::Appending::with_text_twice, ether_wire::proofs::Appending::with_text_none))]

ghost use Rattle.std.specs.Prelude.{◌≡◌};
ghost use Rattle.ether_wire.specs.Ends.{Puts};
ghost use Rattle.ev_view.specs.EdgeViews.{comma, port_words, network_words, each_from, served_text, edge_words, edge_line};

use ether_wire::{Addr, Device, Out, Vni, put_addr, put_decimal};
use ev_edge::Edge;

/// Writes a comma in front of each but the first one.
fn put_comma<W: Out>(out: &mut W, number: u64) -> Result<(), Device>
    ensures { Puts (W.end out.old) (W.end out.new) (comma number) result }
{
    if number == 1 {
        return Ok(());
    }
    out.put(b",")
}

/// Writes the number of a port, and of its network.
fn put_port<W: Out>(out: &mut W, number: u64, vni: Vni) -> Result<(), Device>
    ensures { Puts (W.end out.old) (W.end out.new) (port_words number vni) result }
{
    put_comma(out, number)?;
    put_decimal(out, number)?;
    out.put(b":")?;
    put_decimal(out, u64::from(vni.number()))
}

/// Writes the numbers of ports, and of the network of each.
fn put_ports<W: Out>(out: &mut W, vnis: &[Vni]) -> Result<(), Device>
    ensures { Puts (W.end out.old) (W.end out.new) (each_from port_words 1 vnis.now) result }
{
    for (place, vni) in vnis.iter().enumerate() {
        put_port(out, place as u64 + 1, *vni)?;
    }
    Ok(())
}

/// Writes the number of a network.
fn put_network<W: Out>(out: &mut W, number: u64, vni: Vni) -> Result<(), Device>
    ensures { Puts (W.end out.old) (W.end out.new) (network_words number vni) result }
{
    put_comma(out, number)?;
    put_decimal(out, u64::from(vni.number()))
}

/// Writes the numbers of networks.
fn put_networks<W: Out>(out: &mut W, vnis: &[Vni]) -> Result<(), Device>
    ensures { Puts (W.end out.old) (W.end out.new) (each_from network_words 1 vnis.now) result }
{
    for (place, vni) in vnis.iter().enumerate() {
        put_network(out, place as u64 + 1, *vni)?;
    }
    Ok(())
}

/// Writes the end of an edge's line: its ports and networks.
fn put_served<W: Out>(out: &mut W, ports: &[Vni], vnis: &[Vni]) -> Result<(), Device>
    ensures { Puts (W.end out.old) (W.end out.new) (served_text ports.now vnis.now) result }
{
    out.put(b" ports ")?;
    put_ports(out, ports)?;
    out.put(b" networks ")?;
    put_networks(out, vnis)?;
    out.put(b"\n")
}

/// Writes the line of an edge: its number and address, its ports and networks.
///
/// # Errors
///
/// `Device` exactly if a call of the writer failed; then no further call is made.
pub fn put_edge_line<W: Out>(
    out: &mut W,
    number: u64,
    address: Addr,
    ports: &[Vni],
    vnis: &[Vni],
) -> Result<(), Device>
    ensures { Puts (W.end out.old) (W.end out.new)
        (edge_words number address ports.now vnis.now) result }
{
    put_decimal(out, number)?;
    out.put(b" edge ")?;
    put_addr(out, address)?;
    put_served(out, ports, vnis)
}

/// Writes the line of the edge of a view.
pub fn put_edge<W: Out>(out: &mut W, number: u64, edge: &Edge) -> Result<(), Device>
    ensures { Puts (W.end out.old) (W.end out.new) (edge_line number edge.now) result }
{
    let routes = edge.routes();
    put_edge_line(out, number, routes.address(), routes.ports(), routes.vnis())
}
