//! Answers queries about the edges of the fabric. It allocates no memory, and makes no step.
ghost use Rattle.std.specs.Prelude.{◌≡◌, option_map};
ghost use Rattle.ether_wire.specs.Ends.{Puts};
ghost use Rattle.ev_fabric.specs.Fabric.{nth};
ghost use Rattle.ev_script.specs.Views.{help_text, edges_text, no_edge_text, edge_answer, view_text};

use crate::script::Question;
use ether_wire::{Device, Out, put_decimal};
use ev_edge::Edge;
use ev_fabric::Fabric;
use ev_view::{EdgeQuestion, put_edge, put_edge_view};

/// Writes each kind of line.
fn put_help<W: Out>(out: &mut W) -> Result<(), Device>
    ensures { Puts (W.end out.old) (W.end out.new) help_text result }
{
    out.put(
        b"E up P\n\
E down P\n\
E mcheck P\n\
E second N\n\
E frame P HEX\n\
E tunnel ADDR HEX\n\
E pin VNI MAC P\n\
E unpin VNI MAC\n\
E thaw VNI MAC\n\
E announce\n\
E deliver K\n\
E restart N\n\
E away ADDR\n\
E back ADDR\n\
E port P\n\
E report\n\
E owner VNI MAC\n\
E counts\n\
E stations [VNI]\n\
E peers\n\
E links\n\
edges\n\
help\n",
    )
}

/// Writes a line for each edge.
fn put_edges<W: Out>(out: &mut W, fabric: &Fabric) -> Result<(), Device>
    ensures { Puts (W.end out.old) (W.end out.new) (edges_text fabric.now) result }
{
    for place in 0..fabric.edges() {
        if let Some(edge) = fabric.edge(place + 1) {
            put_edge(out, place as u64 + 1, edge)?;
        }
    }
    Ok(())
}

/// Returns the edge of this number, if it exists.
pub(crate) fn edge_of(fabric: &Fabric, edge: u64) -> Option<&Edge>
    ensures { option_map (λ e. e.now) result ≡ nth fabric.now.edges edge }
{
    fabric.edge(edge as usize)
}

/// Writes the refusal for an edge that doesn't exist.
fn put_no_edge<W: Out>(out: &mut W, number: u64) -> Result<(), Device>
    ensures { Puts (W.end out.old) (W.end out.new) (no_edge_text number) result }
{
    put_decimal(out, number)?;
    out.put(b" refused fabric 18\n")
}

/// Writes the answer to a query about one edge.
fn put_edge_answer<W: Out>(
    out: &mut W,
    fabric: &Fabric,
    number: u64,
    question: &EdgeQuestion,
) -> Result<(), Device>
    ensures { Puts (W.end out.old) (W.end out.new)
        (edge_answer number (nth fabric.now.edges number) question.now) result }
{
    match edge_of(fabric, number) {
        None => put_no_edge(out, number),
        Some(edge) => put_edge_view(out, number, edge, question),
    }
}

/// Writes the answer to a query.
pub(crate) fn put_view<W: Out>(
    out: &mut W,
    fabric: &Fabric,
    question: &Question,
) -> Result<(), Device>
    ensures { Puts (W.end out.old) (W.end out.new) (view_text fabric.now question.now) result }
{
    match question {
        Question::Help => put_help(out),
        Question::Edges => put_edges(out, fabric),
        Question::OfEdge(number, question) => put_edge_answer(out, fabric, *number, question),
    }
}
