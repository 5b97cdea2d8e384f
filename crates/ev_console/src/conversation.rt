//! A conversation: line after line, each answered before the next one is processed.
ghost use Rattle.std.specs.Prelude.{◌≡◌, ◌^◌, ◌∷◌, ◌++◌, [], take, OnOk};
ghost use Rattle.ether_wire.specs.Ends.{Allows};
ghost use Rattle.ev_console.specs.Conversation.{Converses, Talks};
ghost use Rattle.ev_console.specs.Inner.Conversation.{TakesOctets, TakesEnd};

use crate::answering::reply;
use crate::edges::Edges;
use crate::operated::Operated;
use crate::reached::LocalEdges;
use crate::system_drops::SystemDrops;
use arrayvec::ArrayVec;
use ether_wire::{Device, Flushing, In};
use ev_book::Naming;
use ev_report::MOST_READS;
use std::alloc::Global;
use std::sync::Wait;

/// The number of octets of a line that are kept: one more than a line may have, so that a longer
/// line is recognized.
const KEPT: usize = 20_001;

/// The most octets of one read.
const PIECE: usize = 4_096;

/// Keeps an octet with the line that has begun, if there is room.
fn keep(line: &mut ArrayVec<u8, KEPT>, octet: u8)
    ensures { line.new.items ≡ take 20001 (line.old.items ++ octet ∷ []) }
{
    if line.len() < KEPT {
        line.push(octet);
    }
}

/// Processes an octet. A line feed ends the line that has begun, which is then answered. Any other
/// octet is kept with that line if there is room.
fn take_octet<O: Operated, W: Flushing>(
    alloc: Global,
    operated: &mut O,
    line: &mut ArrayVec<u8, KEPT>,
    octet: u8,
    out: &mut W,
) -> Result<(), Device>
    ensures takes { TakesOctets (O.count operated.old) (octet ∷ []) line.old.items line.new.items
        (O.asked operated.old) (O.asked operated.new) (W.end out.old) (W.end out.new) result }
    ensures failures { OnOk result ((W.end out.new).failures ≡ (W.end out.old).failures) }
    ensures flushed { W.held out.old ≡ [] → OnOk result (W.held out.new ≡ []) }
    ensures count { O.count operated.new ≡ O.count operated.old }
{
    if octet != b'\n' {
        keep(line, octet);
        return Ok(());
    }
    let replied = reply(alloc, operated, line.as_slice(), out);
    line.clear();
    replied
}

/// Processes the octets of a piece that was read.
fn take_piece<O: Operated, W: Flushing>(
    alloc: Global,
    operated: &mut O,
    line: &mut ArrayVec<u8, KEPT>,
    piece: &[u8],
    out: &mut W,
) -> Result<(), Device>
    ensures takes { TakesOctets (O.count operated.old) piece.now line.old.items line.new.items
        (O.asked operated.old) (O.asked operated.new) (W.end out.old) (W.end out.new) result }
    ensures failures { OnOk result ((W.end out.new).failures ≡ (W.end out.old).failures) }
    ensures flushed { W.held out.old ≡ [] → OnOk result (W.held out.new ≡ []) }
    ensures count { O.count operated.new ≡ O.count operated.old }
{
    for octet in piece {
        match take_octet(alloc, operated, line, *octet, out) {
            Ok(()) => {}
            Err(device) => return Err(device),
        }
    }
    Ok(())
}

/// Answers the last line, if it lacks its line feed.
fn take_end<O: Operated, W: Flushing>(
    alloc: Global,
    operated: &mut O,
    line: &[u8],
    out: &mut W,
) -> Result<(), Device>
    ensures { TakesEnd (O.count operated.old) line.now
        (O.asked operated.old) (O.asked operated.new) (W.end out.old) (W.end out.new) result }
{
    if line.is_empty() {
        return Ok(());
    }
    reply(alloc, operated, line, out)
}

/// Answers the lines that are read, each once and in their order, for any edges that can be
/// queried.
///
/// # Errors
///
/// `Device` if a read or a write failed, or 2^40 reads didn't reach the end; then no further line
/// is processed.
pub fn converse_with<O: Operated, I: In, W: Flushing>(
    alloc: Global,
    operated: &mut O,
    reader: &mut I,
    out: &mut W,
) -> Result<(), Device>
    requires { Allows (2 ^ 40) (I.end reader.old) }
    ensures { Converses (O.count operated.old) (I.end reader.old) (I.end reader.new)
        (O.asked operated.old) (O.asked operated.new) (W.end out.old) (W.end out.new) result }
{
    let mut buffer = [0; PIECE];
    let mut line = ArrayVec::new();
    for turn in 0..MOST_READS {
        let n = match reader.read(&mut buffer) {
            Ok(n) => n,
            Err(device) => return Err(device),
        };
        if n == 0 {
            return take_end(alloc, operated, line.as_slice(), out);
        }
        match take_piece(alloc, operated, &mut line, &buffer[..n], out) {
            Ok(()) => {}
            Err(device) => return Err(device),
        }
    }
    Err(Device)
}

/// Answers the lines that an operator writes, each once and in their order, up to the end of the
/// input. After each answer it writes an empty line, and then flushes the writer. A line of more
/// than 20,000 octets is a bad one; it takes no more memory than any other line. The answer about
/// other edges shows the host's `unlisted` ones too, whose records are dropped.
///
/// # Errors
///
/// `Device` if a read or a write failed, or 2^40 reads didn't reach the end; then no further line
/// is processed.
pub fn converse<J: Naming, R: Wait, T: SystemDrops, I: In, W: Flushing>(
    alloc: Global,
    host: LocalEdges<'_, J, R, T>,
    reader: &mut I,
    out: &mut W,
) -> Result<(), Device>
    requires { Allows (2 ^ 40) (I.end reader.old) }
    ensures { Talks (I.end reader.old) (I.end reader.new) (W.end out.old) (W.end out.new) result }
{
    let mut edges = Edges { many: host };
    converse_with(alloc, &mut edges, reader, out)
}
