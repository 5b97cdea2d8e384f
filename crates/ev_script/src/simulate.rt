//! The simulation: a script's commands, one after the other, on a fabric of edges.
#![tactic(auto, using(ether_wire::proofs::Appending::with_text_twice, ether_wire::proofs::Appending::with_text_none))]

ghost use Rattle.std.specs.Prelude.{◌≡◌, ◌^◌, Ok};
ghost use Rattle.ether_wire.specs.Ends.{IsOpen, Allows, Puts};
ghost use Rattle.ev_fabric.specs.Opening.{AreConfigs};
ghost use Rattle.ev_report.specs.Ends.{devices};
ghost use Rattle.ev_script.specs.Simulation.{bad_head, bad_line, PlaysOn, PlaysRead, Simulates};
ghost use Rattle.ev_script.specs.Inner.Simulation.{note_of_line, read_error_status};

mod echo;
mod print;
mod simulator;
mod viewing;

use crate::checking::put_fault;
use crate::script::{Mode, why_of};
use crate::simulate::simulator::{BadLine, Simulator};
use ether_wire::{Device, In, Out, put_decimal};
use ev_edge::EdgeConfig;
use ev_fabric::Fabric;
use ev_report::{Ending, ReadError, Status, has_failed, read_whole, status_of};
pub use print::{put_number, put_port, put_refusal, put_reply, put_report, put_words};
pub use simulator::port_number;
use std::alloc::Global;

/// Writes `line N bad`.
fn put_bad<N: Out>(notes: &mut N, number: u64) -> Result<(), Device>
    ensures { Puts (N.end notes.old) (N.end notes.new) (bad_head number) result }
{
    notes.put(b"line ")?;
    put_decimal(notes, number)?;
    notes.put(b" bad\n")
}

/// Writes `line N bad`, and on the next line the reason.
fn put_bad_and_why<N: Out>(notes: &mut N, number: u64, line: &[u8]) -> Result<(), Device>
    ensures { Puts (N.end notes.old) (N.end notes.new) (bad_line number line.now) result }
{
    put_bad(notes, number)?;
    put_fault(notes, b"standard input", number, why_of(line))
}

/// Writes which line is bad and why, if a line is bad.
fn put_bad_line<N: Out>(bad: Option<BadLine<'_>>, notes: &mut N) -> Result<(), Device>
    ensures { Puts (N.end notes.old) (N.end notes.new) (note_of_line bad.entry) result }
{
    match bad {
        None => Ok(()),
        Some(found) => put_bad_and_why(notes, found.number, found.line),
    }
}

/// Runs a script on a fabric, and returns the status.
fn play<W: Out, N: Out>(
    mode: Mode,
    fabric: Fabric,
    script: &[u8],
    out: &mut W,
    notes: &mut N,
) -> Status
    requires out { IsOpen (W.end out.old) }
    requires notes { IsOpen (N.end notes.old) }
    ensures { PlaysOn mode fabric script.now (W.end out.old) (W.end out.new)
        (N.end notes.old) (N.end notes.new) result }
{
    let mut simulator = Simulator::new(fabric);
    let bad = simulator.play(mode, script, out);
    let is_noted = put_bad_line(bad, notes).is_ok();
    let has_failed = has_failed(Ending::Ended, simulator.is_told(), is_noted);
    status_of(has_failed, simulator.is_out_of_memory(), bad.is_some())
}

/// Runs a script on a fabric of edges that are opened with these configurations.
fn open_and_play<W: Out, N: Out>(
    alloc: Global,
    mode: Mode,
    configs: Vec<EdgeConfig>,
    script: &[u8],
    out: &mut W,
    notes: &mut N,
) -> Status
    requires configs { AreConfigs configs.items }
    requires out { IsOpen (W.end out.old) }
    requires notes { IsOpen (N.end notes.old) }
    ensures { PlaysRead mode configs.items (Ok script.now) (W.end out.old) (W.end out.new)
        (N.end notes.old) (N.end notes.new) result }
{
    match Fabric::new(alloc, configs) {
        Ok(fabric) => play(mode, fabric, script, out, notes),
        Err(_) => Status::Memory,
    }
}

/// Returns the status of a script that wasn't read to its end.
fn read_error_status(read_error: ReadError) -> Status
    ensures { result ≡ read_error_status read_error }
{
    match read_error {
        ReadError::Device => Status::Device,
        ReadError::NoMemory => Status::Memory,
    }
}

/// Reads a whole script, and then runs its lines, one after the other, on a fabric of edges that
/// are opened with these configurations. It prints each command's lines on `out`. The first line
/// outside the grammar ends the run: `notes` gets `line N bad`, and on the next line the reason, as
/// `check_lines` writes it for a file `standard input`. The lines before it have been run, and
/// their output stays. If the script is played (`Mode::Play`), empty lines and remarks are skipped,
/// queries are answered, and the line of each command or query is printed before its result.
///
/// If the script can't be read to its end, or there is no memory for it or for the edges, nothing
/// is run. If a call of `out` fails, no further one is made, and the script is run on.
///
/// The status is the greatest that applies: 4 if a read or a write failed, or 2^40 reads didn't
/// reach the end, 3 if memory was refused to the script, to the edges or to a step, 1 if a line is
/// outside the grammar, else 0.
pub fn simulate_run<R: In, W: Out, N: Out>(
    alloc: Global,
    mode: Mode,
    configs: Vec<EdgeConfig>,
    reader: &mut R,
    out: &mut W,
    notes: &mut N,
) -> Status
    requires configs { AreConfigs configs.items }
    requires reader { Allows (2 ^ 40) (R.end reader.old) }
    requires out { IsOpen (W.end out.old) }
    requires notes { IsOpen (N.end notes.old) }
    ensures { Simulates mode configs.items
        (devices (R.end reader.old) (W.end out.old) (N.end notes.old))
        (devices (R.end reader.new) (W.end out.new) (N.end notes.new)) result }
{
    match read_whole(alloc, reader) {
        Ok(script) => open_and_play(alloc, mode, configs, script.as_slice(), out, notes),
        Err(read_error) => read_error_status(read_error),
    }
}
