//! The answer to a query of one edge. It takes no memory and reads only this edge.
#![tactic(auto, using(ether_wire::proofs::Appending::with_text_twice, ether_wire::proofs::Appending::with_text_none))]

ghost use Rattle.std.specs.Prelude.{◌≡◌, IfOk};
ghost use Rattle.ether_wire.specs.Ends.{Puts};
ghost use Rattle.ev_view.specs.EdgeViews.{edge_view_text};

use crate::counts::put_counts;
use crate::owner::put_owner;
use crate::peers::put_peers;
use crate::sheet::Sheet;
use crate::stations::put_stations;
use ether_wire::{Device, Out, Vni};
use ev_edge::Edge;
use mac_arena::Station;
use std::alloc::{AllocError, Global};

/// A query of one edge.
#[derive(Clone, Copy, Debug)]
pub enum EdgeQuestion {
    /// The owner of a station, and why.
    Owner(Station),
    /// Its counts.
    Counts,
    /// The stations that it has learnt, of one VNI or of all.
    Stations(Option<Vni>),
    /// The other edges that it lists, and whether they are away.
    Peers,
    /// The numbers of its links. The edge itself has none, so its answer is empty: a console reads
    /// the numbers elsewhere.
    Links,
}

/// Writes the answer to a query of this edge, which has this number.
///
/// # Errors
///
/// `Device` exactly if a call of the writer failed; then no further call is made.
pub fn put_edge_view<W: Out>(
    out: &mut W,
    number: u64,
    edge: &Edge,
    question: &EdgeQuestion,
) -> Result<(), Device>
    ensures { Puts (W.end out.old) (W.end out.new)
        (edge_view_text number edge.now question.now) result }
{
    match question {
        EdgeQuestion::Owner(station) => put_owner(
            out,
            number,
            edge.table(),
            station.vni,
            station.mac,
        ),
        EdgeQuestion::Counts => put_counts(out, number, edge),
        EdgeQuestion::Stations(vni) => put_stations(out, number, edge, vni),
        EdgeQuestion::Peers => put_peers(out, number, edge),
        EdgeQuestion::Links => Ok(()),
    }
}

/// Returns the answer to a query of this edge, which has this number, in newly allocated memory.
///
/// # Errors
///
/// `AllocError` if memory is refused.
pub fn view_of(
    alloc: Global,
    number: u64,
    edge: &Edge,
    question: &EdgeQuestion,
) -> Result<Vec<u8>, AllocError>
    ensures { IfOk result
        (λ text. text.items ≡ edge_view_text number edge.now question.now) }
{
    let mut sheet = Sheet::new(alloc);
    match put_edge_view(&mut sheet, number, edge, question) {
        Ok(()) => Ok(sheet.into_octets()),
        Err(_) => Err(AllocError),
    }
}
