//! The lines that tell what wasn't taken, and how a stream ended.
#![tactic(auto, using(ether_wire::proofs::Appending::with_text_twice, ether_wire::proofs::Appending::with_text_none))]

ghost use Rattle.ether_wire.specs.Ends.{Puts};
ghost use Rattle.ev_report.specs.Notes.{line, refused_line, fault_line, truncated_line};

use ether_wire::{Device, Out, put_decimal};

/// Writes a line of two numbers, each behind its words.
fn put_line<N: Out>(
    notes: &mut N,
    first: &[u8],
    number: u64,
    second: &[u8],
    other: u64,
) -> Result<(), Device>
    ensures { Puts (N.end notes.old) (N.end notes.new)
        (line first.now number second.now other) result }
{
    notes.put(first)?;
    put_decimal(notes, number)?;
    notes.put(second)?;
    put_decimal(notes, other)?;
    notes.put(b"\n")
}

/// Writes `record N refused C`.
pub(crate) fn put_refused<N: Out>(notes: &mut N, number: u64, refusal: u8) -> Result<(), Device>
    ensures { Puts (N.end notes.old) (N.end notes.new) (refused_line number refusal) result }
{
    put_line(notes, b"record ", number, b" refused ", u64::from(refusal))
}

/// Writes `fault C at record N`.
pub(crate) fn put_fault<N: Out>(notes: &mut N, fault: u8, number: u64) -> Result<(), Device>
    ensures { Puts (N.end notes.old) (N.end notes.new) (fault_line fault number) result }
{
    put_line(notes, b"fault ", u64::from(fault), b" at record ", number)
}

/// Writes `truncated K at record N`.
pub(crate) fn put_truncated<N: Out>(notes: &mut N, octets: u64, number: u64) -> Result<(), Device>
    ensures { Puts (N.end notes.old) (N.end notes.new) (truncated_line octets number) result }
{
    put_line(notes, b"truncated ", octets, b" at record ", number)
}
