//! The edges elsewhere that the configuration doesn't name, after the answer of an edge.
#![tactic(auto, using(ether_wire::proofs::Appending::with_text_twice, ether_wire::proofs::Appending::with_text_none))]

ghost use Rattle.std.specs.Prelude.{◌≡◌, ◌++◌, IfOk};
ghost use Rattle.ether_wire.specs.Ends.{Puts};
ghost use Rattle.ev_view.specs.Peers.{unlisted_line, unlisted_lines, more_line, full_text, unlisted_text, text_after};

use crate::sheet::Sheet;
use crate::view::EdgeQuestion;
use ether_wire::{Addr, Device, Out, put_addr, put_decimal};
use std::alloc::{AllocError, Global};

/// The most edges that are kept by name.
const MOST: usize = 64;

/// Writes the line of an edge that the configuration doesn't name.
fn put_line<W: Out>(out: &mut W, number: u64, originator: Addr) -> Result<(), Device>
    ensures { Puts (W.end out.old) (W.end out.new) (unlisted_line number originator) result }
{
    put_decimal(out, number)?;
    out.put(b" peer ")?;
    put_addr(out, originator)?;
    out.put(b" unlisted\n")
}

/// Writes a line for each of these edges.
fn put_lines<W: Out>(out: &mut W, number: u64, unlisted: &[Addr]) -> Result<(), Device>
    ensures { Puts (W.end out.old) (W.end out.new) (unlisted_lines number unlisted.now) result }
{
    for originator in unlisted {
        put_line(out, number, *originator)?;
    }
    Ok(())
}

/// Writes that there may be more edges than those that have a line.
fn put_more<W: Out>(out: &mut W, number: u64) -> Result<(), Device>
    ensures { Puts (W.end out.old) (W.end out.new) (more_line number) result }
{
    put_decimal(out, number)?;
    out.put(b" unlisted 64 or more\n")
}

/// Writes that there may be more edges than these, if no more are kept by name.
fn put_full<W: Out>(out: &mut W, number: u64, unlisted: &[Addr]) -> Result<(), Device>
    ensures { Puts (W.end out.old) (W.end out.new) (full_text number unlisted.now) result }
{
    if unlisted.len() < MOST {
        return Ok(());
    }
    put_more(out, number)
}

/// Writes a text, and these edges after it.
fn put_after<W: Out>(out: &mut W, number: u64, text: &[u8], unlisted: &[Addr]) -> Result<(), Device>
    ensures { Puts (W.end out.old) (W.end out.new)
        (text.now ++ unlisted_text number unlisted.now) result }
{
    out.put(text)?;
    put_lines(out, number, unlisted)?;
    put_full(out, number, unlisted)
}

/// Returns the answer of an edge, which has this number, to a query. If the query is about other
/// edges, those that the configuration doesn't name follow in newly allocated memory.
///
/// # Errors
///
/// `AllocError` if memory is refused.
pub fn with_unlisted(
    alloc: Global,
    number: u64,
    question: &EdgeQuestion,
    text: Vec<u8>,
    unlisted: &[Addr],
) -> Result<Vec<u8>, AllocError>
    ensures { IfOk result
        (λ all. all.items ≡ text.items ++ text_after number unlisted.now question.now) }
{
    match question {
        EdgeQuestion::Peers => {}
        EdgeQuestion::Owner(_)
        | EdgeQuestion::Counts
        | EdgeQuestion::Stations(_)
        | EdgeQuestion::Links => {
            return Ok(text);
        }
    }
    let mut sheet = Sheet::new(alloc);
    match put_after(&mut sheet, number, text.as_slice(), unlisted) {
        Ok(()) => Ok(sheet.into_octets()),
        Err(_) => Err(AllocError),
    }
}
