//! The numbers of an edge's links, one line a link.
#![tactic(auto, using(ether_wire::proofs::Appending::with_text_twice, ether_wire::proofs::Appending::with_text_none))]

ghost use Rattle.std.specs.Prelude.{◌≡◌, ◌++◌, IfOk};
ghost use Rattle.ether_wire.specs.Ends.{Puts};
ghost use Rattle.ev_view.specs.EdgeViews.{each_from};
ghost use Rattle.ev_view.specs.LinkLines.{place_words, amount_words, in_words, refused_words, system_words, dropped_words, out_words, link_line};

use crate::sheet::Sheet;
use ether_wire::{Device, Out, put_decimal};
use std::alloc::{AllocError, Global};

/// The numbers of a link.
#[derive(Clone, Copy, Debug, PartialEq, Eq)]
pub struct LinkRow {
    /// The datagrams that came.
    pub received: u64,
    /// Their octets.
    pub received_octets: u64,
    /// The reads that failed.
    pub failed_reads: u64,
    /// The seconds since the last datagram came.
    pub idle_in: u64,
    /// The dropped datagrams whose frame was too long.
    pub too_long: u64,
    /// The dropped datagrams that held no frame.
    pub malformed: u64,
    /// The dropped datagrams from edges that aren't listed.
    pub unlisted: u64,
    /// The dropped datagrams of networks that the edge doesn't serve.
    pub other_network: u64,
    /// The dropped group and unknown frames beyond the storm limit of the port.
    pub storm: u64,
    /// The datagrams that were dropped because memory was refused.
    pub no_memory: u64,
    /// The datagrams that the system dropped at the link's socket, if their number is known.
    pub system_drops: Option<u64>,
    /// The datagrams that were sent.
    pub sent: u64,
    /// Their octets.
    pub sent_octets: u64,
    /// The frames and BPDUs that were dropped because there was no room.
    pub no_room: u64,
    /// The sends that failed.
    pub failed_sends: u64,
    /// The seconds since the last datagram was sent.
    pub idle_out: u64,
}

/// Writes a word and its number.
fn put_amount<W: Out>(out: &mut W, word: &[u8], amount: u64) -> Result<(), Device>
    ensures { Puts (W.end out.old) (W.end out.new) (amount_words word.now amount) result }
{
    out.put(word)?;
    put_decimal(out, amount)
}

/// Writes which link a line is about: the tunnel's, or that of the port with this number.
fn put_place<W: Out>(out: &mut W, place: u64) -> Result<(), Device>
    ensures { Puts (W.end out.old) (W.end out.new) (place_words place) result }
{
    if place == 0 {
        return out.put(b" link tunnel");
    }
    out.put(b" link ")?;
    put_decimal(out, place)
}

/// Writes what came over a link.
fn put_in<W: Out>(out: &mut W, row: &LinkRow) -> Result<(), Device>
    ensures { Puts (W.end out.old) (W.end out.new) (in_words row.now) result }
{
    put_amount(out, b" in ", row.received)?;
    put_amount(out, b" octets ", row.received_octets)?;
    put_amount(out, b" failed ", row.failed_reads)?;
    put_amount(out, b" idle ", row.idle_in)
}

/// Writes how many datagrams the edge dropped, by cause.
fn put_refused<W: Out>(out: &mut W, row: &LinkRow) -> Result<(), Device>
    ensures { Puts (W.end out.old) (W.end out.new) (refused_words row.now) result }
{
    put_amount(out, b" long ", row.too_long)?;
    put_amount(out, b" malformed ", row.malformed)?;
    put_amount(out, b" unlisted ", row.unlisted)?;
    put_amount(out, b" network ", row.other_network)?;
    put_amount(out, b" storm ", row.storm)?;
    put_amount(out, b" memory ", row.no_memory)
}

/// Writes how many datagrams the system dropped, if that is known.
fn put_system<W: Out>(out: &mut W, drops: Option<u64>) -> Result<(), Device>
    ensures { Puts (W.end out.old) (W.end out.new) (system_words drops) result }
{
    match drops {
        Some(drops) => put_amount(out, b" system ", drops),
        None => Ok(()),
    }
}

/// Writes how many datagrams the edge and the system dropped.
fn put_dropped<W: Out>(out: &mut W, row: &LinkRow) -> Result<(), Device>
    ensures { Puts (W.end out.old) (W.end out.new) (dropped_words row.now) result }
{
    put_refused(out, row)?;
    put_system(out, row.system_drops)
}

/// Writes what went over a link, and ends the line.
fn put_out<W: Out>(out: &mut W, row: &LinkRow) -> Result<(), Device>
    ensures { Puts (W.end out.old) (W.end out.new) (out_words row.now) result }
{
    put_amount(out, b" out ", row.sent)?;
    put_amount(out, b" octets ", row.sent_octets)?;
    put_amount(out, b" dropped ", row.no_room)?;
    put_amount(out, b" failed ", row.failed_sends)?;
    put_amount(out, b" idle ", row.idle_out)?;
    out.put(b"\n")
}

/// Writes the line of a link.
fn put_line<W: Out>(out: &mut W, number: u64, place: u64, row: &LinkRow) -> Result<(), Device>
    ensures { Puts (W.end out.old) (W.end out.new) (link_line number place row.now) result }
{
    put_decimal(out, number)?;
    put_place(out, place)?;
    put_in(out, row)?;
    put_dropped(out, row)?;
    put_out(out, row)
}

/// Writes a line for each of these links, the tunnel's first.
fn put_lines<W: Out>(out: &mut W, number: u64, rows: &[LinkRow]) -> Result<(), Device>
    ensures { Puts (W.end out.old) (W.end out.new)
        (each_from (link_line number) 0 rows.now) result }
{
    for (place, row) in rows.iter().enumerate() {
        put_line(out, number, place as u64, row)?;
    }
    Ok(())
}

/// Returns the lines of the links of the edge with this number, in newly allocated memory.
///
/// # Errors
///
/// `AllocError` if memory is refused.
pub fn links_of(alloc: Global, number: u64, rows: &[LinkRow]) -> Result<Vec<u8>, AllocError>
    ensures { IfOk result (λ text. text.items ≡ each_from (link_line number) 0 rows.now) }
{
    let mut sheet = Sheet::new(alloc);
    match put_lines(&mut sheet, number, rows) {
        Ok(()) => Ok(sheet.into_octets()),
        Err(_) => Err(AllocError),
    }
}
