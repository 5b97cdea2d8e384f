//! The texts of a console's answers, in the words of a simulation.
#![tactic(auto, using(ether_wire::proofs::Appending::with_text_twice))]

ghost use Rattle.std.specs.Prelude.{◌≡◌, ◌++◌, codes};
ghost use Rattle.ether_wire.specs.Ends.{Puts};
ghost use Rattle.ev_console.specs.Answers.{unreached_text, book_refusal_text, entered_text, port_seen_text, no_memory_text, view_seen_text, served_seen_text, bad_text, help_text, simulated_text};

use crate::operated::Unreached;
use ether_wire::{Device, Out};
use ev_book::BookRefusal;
use ev_edge::{EdgeRefusal, Refusal, Reply};
use ev_fabric::FabricRefusal;
use ev_mailboxes::{EdgeNetworks, PortView};
use ev_script::{put_number, put_port, put_refusal, put_reply, put_words, why_text};
use ev_view::put_edge_line;
use std::alloc::AllocError;

/// Writes why an edge doesn't answer.
pub(crate) fn put_unreached<W: Out>(
    out: &mut W,
    edge: u64,
    unreached: Unreached,
) -> Result<(), Device>
    ensures { Puts (W.end out.old) (W.end out.new) (unreached_text edge unreached) result }
{
    match unreached {
        Unreached::NoEdge => put_refusal(out, edge, &FabricRefusal::NoSuchEdge),
        Unreached::Ended => put_words(out, edge, b" ended\n"),
    }
}

/// Writes why a book refused a step. Its own refusals have numbers in addition to those of its
/// edge.
fn put_book_refusal<W: Out>(out: &mut W, edge: u64, refusal: BookRefusal) -> Result<(), Device>
    ensures { Puts (W.end out.old) (W.end out.new) (book_refusal_text edge refusal) result }
{
    match refusal {
        BookRefusal::Edge(refusal) => put_refusal(out, edge, &FabricRefusal::Edge(refusal)),
        BookRefusal::NoRoom | BookRefusal::PassSpent | BookRefusal::PassStrange => {
            put_number(out, edge, b" refused edge ", u64::from(refusal.number()))
        }
    }
}

/// Writes the result of a step.
pub(crate) fn put_entered<W: Out>(
    out: &mut W,
    edge: u64,
    answer: &Result<Result<Reply, BookRefusal>, Unreached>,
) -> Result<(), Device>
    ensures { Puts (W.end out.old) (W.end out.new) (entered_text edge answer.now) result }
{
    match answer {
        Ok(Ok(reply)) => put_reply(out, edge, reply),
        Ok(Err(refusal)) => put_book_refusal(out, edge, *refusal),
        Err(unreached) => put_unreached(out, edge, *unreached),
    }
}

/// Writes the state of a port.
pub(crate) fn put_port_seen<W: Out>(
    out: &mut W,
    edge: u64,
    port: u8,
    answer: &Result<Option<PortView>, Unreached>,
) -> Result<(), Device>
    ensures { Puts (W.end out.old) (W.end out.new) (port_seen_text edge port answer.now) result }
{
    match answer {
        Ok(Some(view)) => put_port(out, edge, port, &view.state, view.passes),
        Ok(None) => {
            let refusal = FabricRefusal::Edge(Refusal::Edge(EdgeRefusal::NoSuchPort));
            put_refusal(out, edge, &refusal)
        }
        Err(unreached) => put_unreached(out, edge, *unreached),
    }
}

/// Writes that memory was refused.
pub(crate) fn put_no_memory<W: Out>(out: &mut W, edge: u64) -> Result<(), Device>
    ensures { Puts (W.end out.old) (W.end out.new) (no_memory_text edge) result }
{
    put_refusal(out, edge, &FabricRefusal::NoMemory)
}

/// Writes the address, ports and VNIs that an edge serves.
pub(crate) fn put_served<W: Out>(
    out: &mut W,
    edge: u64,
    answer: &Result<Result<EdgeNetworks, AllocError>, Unreached>,
) -> Result<(), Device>
    ensures { Puts (W.end out.old) (W.end out.new) (served_seen_text edge answer.now) result }
{
    match answer {
        Ok(Ok(served)) => {
            let (ports, vnis) = (served.ports.as_slice(), served.vnis.as_slice());
            put_edge_line(out, edge, served.address, ports, vnis)
        }
        Ok(Err(_)) => put_no_memory(out, edge),
        Err(unreached) => put_unreached(out, edge, *unreached),
    }
}

/// Writes the answer to a question.
pub(crate) fn put_view_seen<W: Out>(
    out: &mut W,
    edge: u64,
    answer: &Result<Result<Vec<u8>, AllocError>, Unreached>,
) -> Result<(), Device>
    ensures { Puts (W.end out.old) (W.end out.new) (view_seen_text edge answer.now) result }
{
    match answer {
        Ok(Ok(text)) => out.put(text.as_slice()),
        Ok(Err(_)) => put_no_memory(out, edge),
        Err(unreached) => put_unreached(out, edge, *unreached),
    }
}

/// Writes why a line is a bad one.
pub(crate) fn put_bad<W: Out>(out: &mut W, line: &[u8]) -> Result<(), Device>
    ensures { Puts (W.end out.old) (W.end out.new) (bad_text line.now) result }
{
    out.put(b"bad")?;
    out.put(why_text(line))
}

/// Writes that a line belongs to a simulation.
pub(crate) fn put_simulated<W: Out>(out: &mut W) -> Result<(), Device>
    ensures { Puts (W.end out.old) (W.end out.new) simulated_text result }
{
    out.put(b"bad: only a simulation takes this line\n")
}

/// Writes the list of the console's lines.
pub(crate) fn put_help<W: Out>(out: &mut W) -> Result<(), Device>
    ensures { Puts (W.end out.old) (W.end out.new) help_text result }
{
    out.put(
        b"E up P\n\
E down P\n\
E mcheck P\n\
E pin VNI MAC P\n\
E unpin VNI MAC\n\
E thaw VNI MAC\n\
E away ADDR\n\
E back ADDR\n\
E port P\n\
E report\n\
E owner VNI MAC\n\
E counts\n\
E stations [VNI]\n\
E peers\n\
E links\n\
edges\n\
help\n",
    )
}
