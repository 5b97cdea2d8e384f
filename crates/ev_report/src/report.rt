//! The report of a stream of update records.
#![tactic(auto, using(ether_wire::proofs::Appending::with_text_twice, ether_wire::proofs::Appending::with_text_none))]

ghost use Rattle.std.specs.Prelude.{◌≡◌, ◌^◌, ◌||◌, not};
ghost use Rattle.ether_wire.specs.Ends.{IsOpen, Allows};
ghost use Rattle.route_join.specs.Table.{AreOriginators};
ghost use Rattle.ev_report.specs.Notes.{has_stopped, status_of};
ghost use Rattle.ev_report.specs.Ends.{devices};
ghost use Rattle.ev_report.specs.Report.{Reports};

use crate::ending::Ending;
use crate::status::Status;
use crate::stream::Intake;
use arrayvec::ArrayVec;
use ether_wire::{Addr, In, Out};
use route_wire::Feed;
use std::alloc::Global;

/// Returns `true` if a device failed while the report and the notes were written.
pub fn has_failed(ending: Ending, is_reported: bool, is_told: bool) -> bool
    ensures { result ≡ (has_stopped ending || (not is_reported || not is_told)) }
{
    ending.has_stopped() || !is_reported || !is_told
}

/// The greatest status that applies.
pub fn status_of(has_failed: bool, is_out_of_memory: bool, is_broken: bool) -> Status
    ensures { result ≡ status_of has_failed is_out_of_memory is_broken }
{
    if has_failed {
        return Status::Device;
    }
    if is_out_of_memory {
        return Status::Memory;
    }
    if is_broken {
        Status::Broken
    } else {
        Status::Done
    }
}

/// Reads update records up to the reader's end or the first fault, and writes the report of the
/// table of those that were taken. `notes` gets a line for each record that wasn't, by its number
/// from 1 on, and then one for what broke the stream off: `record N refused C`, `fault C at record
/// N`, `truncated K at record N`. They are given out with each piece that was read. A failed read
/// ends the input; no record counts as cut then. An end that has failed is called no more.
///
/// The status is the greatest that applies: 4 where a read or a write failed, or 2^40 reads didn't
/// reach the end, 3 where there was no memory for an update, 1 where the stream ends with a fault
/// or a cut record, else 0. The input takes no memory.
pub fn report_run<R: In, W: Out, N: Out>(
    alloc: Global,
    originators: ArrayVec<Addr, 64>,
    reader: &mut R,
    out: &mut W,
    notes: &mut N,
) -> Status
    requires originators { AreOriginators originators.items }
    requires reader { Allows (2 ^ 40) (R.end reader.old) }
    requires out { IsOpen (W.end out.old) }
    requires notes { IsOpen (N.end notes.old) }
    ensures { Reports originators.items
        (devices (R.end reader.old) (W.end out.old) (N.end notes.old))
        (devices (R.end reader.new) (W.end out.new) (N.end notes.new)) result }
{
    let feed = Feed::new();
    let mut intake = Intake::new(alloc, originators, feed);
    let ending = intake.take_input(reader, notes);
    let is_broken = intake.note_end(ending, notes);
    let is_reported = intake.table().write_report(out).is_ok();
    let has_failed = has_failed(ending, is_reported, intake.is_told());
    status_of(has_failed, intake.is_out_of_memory(), is_broken)
}
