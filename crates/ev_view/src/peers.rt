//! The other edges that an edge lists, and whether they are away.
#![tactic(auto, using(ether_wire::proofs::Appending::with_text_twice, ether_wire::proofs::Appending::with_text_none))]

ghost use Rattle.std.specs.Prelude.{◌≡◌};
ghost use Rattle.ether_wire.specs.Ends.{Puts};
ghost use Rattle.ev_view.specs.EdgeViews.{each_from};
ghost use Rattle.ev_view.specs.Peers.{state_words, peer_line, peer_text, peers_text};

use ether_wire::{Addr, Device, Out, put_addr, put_decimal};
use ev_edge::Edge;

/// Writes whether an edge is away or up, and ends the line.
fn put_state<W: Out>(out: &mut W, is_away: bool) -> Result<(), Device>
    ensures { Puts (W.end out.old) (W.end out.new) (state_words is_away) result }
{
    if is_away {
        out.put(b" away\n")
    } else {
        out.put(b" up\n")
    }
}

/// Writes the line of another edge.
fn put_line<W: Out>(out: &mut W, number: u64, originator: Addr, is_away: bool) -> Result<(), Device>
    ensures { Puts (W.end out.old) (W.end out.new) (peer_line number originator is_away) result }
{
    put_decimal(out, number)?;
    out.put(b" peer ")?;
    put_addr(out, originator)?;
    put_state(out, is_away)
}

/// Writes the line of an originator that an edge lists, unless it is the edge itself.
fn put_peer<W: Out>(out: &mut W, number: u64, edge: &Edge, originator: Addr) -> Result<(), Device>
    ensures { Puts (W.end out.old) (W.end out.new) (peer_text number edge.now originator) result }
{
    if originator == edge.routes().address() {
        return Ok(());
    }
    let is_away = edge.away().contains(&originator);
    put_line(out, number, originator, is_away)
}

/// Writes the other edges that an edge lists, in the order of its table.
pub(crate) fn put_peers<W: Out>(out: &mut W, number: u64, edge: &Edge) -> Result<(), Device>
    ensures { Puts (W.end out.old) (W.end out.new) (peers_text number edge.now) result }
{
    for originator in edge.table().originators() {
        put_peer(out, number, edge, *originator)?;
    }
    Ok(())
}
