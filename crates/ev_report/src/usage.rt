//! The messages about a program's arguments: a usage, a wrong list; and the use of a list.
#![tactic(auto, using(ether_wire::proofs::Appending::with_text_twice, ether_wire::proofs::Appending::with_text_none))]

ghost use Rattle.std.specs.Prelude.{◌≡◌, ◌^◌, is_ok, if◌then◌else◌};
ghost use Rattle.ether_wire.specs.Ends.{Allows, IsOpen};
ghost use Rattle.route_join.specs.Table.{AreOriginators};
ghost use Rattle.ev_report.specs.Ends.{AreOpen, devices};
ghost use Rattle.ev_report.specs.Originators.{originators_of_text, list_text};
ghost use Rattle.ev_report.specs.Usage.{IsTold, TellsUsage, OfList, uses};
ghost use Rattle.ev_report.specs.declared.status.Status.TheVariants as statuses;

use crate::devices::{Buffers, Devices};
use crate::migrate::migrate_run;
use crate::originators::{WrongPart, put_wrong_part, read_originators};
use crate::report::report_run;
use crate::status::Status;
use arrayvec::ArrayVec;
use ether_wire::{Addr, Device, In, Out};
use std::alloc::Global;

/// Returns the status of a usage, by whether it could be printed.
pub fn usage_status(told: Result<(), Device>) -> Status
    ensures { result ≡ (if is_ok told then statuses.Usage else statuses.Device) }
{
    match told {
        Ok(()) => Status::Usage,
        Err(Device) => Status::Device,
    }
}

/// Tells a text on the words.
pub fn tell<N: Out>(text: &[u8], notes: &mut N) -> Status
    requires { IsOpen (N.end notes.old) }
    ensures { IsTold text.now (N.end notes.old) (N.end notes.new) result }
{
    usage_status(notes.put(text))
}

/// Tells which part of a list is wrong.
pub fn tell_list<N: Out>(wrong: WrongPart<'_>, notes: &mut N) -> Status
    requires { IsOpen (N.end notes.old) }
    ensures { IsTold (list_text (wrong.entry.part.now, wrong.entry.fault))
        (N.end notes.old) (N.end notes.new) result }
{
    usage_status(put_wrong_part(notes, wrong))
}

/// Tells a text on the words, and gives the devices back.
pub fn tell_words<R: In, W: Out, N: Out>(
    text: &[u8],
    devices: Devices<R, W, N>,
) -> (Status, Devices<R, W, N>)
    requires { AreOpen devices }
    ensures { TellsUsage text.now devices result.1 result.0 }
{
    let mut devices = devices;
    (tell(text, &mut devices.notes), devices)
}

/// Tells which part of a list is wrong, of devices that are given back.
fn wrong_list<R: In, W: Out, N: Out>(
    wrong: WrongPart<'_>,
    devices: Devices<R, W, N>,
) -> (Status, Devices<R, W, N>)
    requires { AreOpen devices }
    ensures { TellsUsage (list_text (wrong.entry.part.now, wrong.entry.fault))
        devices result.1 result.0 }
{
    let mut devices = devices;
    (tell_list(wrong, &mut devices.notes), devices)
}

/// The use of a stream of records.
#[derive(Clone, Copy, Debug)]
pub enum StreamUse {
    /// The report of its table.
    Report,
    /// Its migration to the present version.
    Migrate,
}

/// Reads the records of these originators and uses them.
fn use_stream<R: In, W: Out, N: Out>(
    alloc: Global,
    wanted: StreamUse,
    originators: ArrayVec<Addr, 64>,
    reader: &mut R,
    out: &mut W,
    notes: &mut N,
) -> Status
    requires originators { AreOriginators originators.items }
    requires reader { Allows (2 ^ 40) (R.end reader.old) }
    requires out { IsOpen (W.end out.old) }
    requires notes { IsOpen (N.end notes.old) }
    ensures { uses wanted originators.items
        (devices (R.end reader.old) (W.end out.old) (N.end notes.old))
        (devices (R.end reader.new) (W.end out.new) (N.end notes.new)) result }
{
    match wanted {
        StreamUse::Report => report_run(alloc, originators, reader, out, notes),
        StreamUse::Migrate => migrate_run(alloc, originators, reader, out, notes),
    }
}

/// Reads the records of the originators that a list names and uses them, or tells which part of the
/// list is wrong (status 2, or 4 where that failed). The writers get few and large pieces.
pub fn use_records<R: In, W: Out, N: Out>(
    alloc: Global,
    wanted: StreamUse,
    list: &str,
    devices: Devices<R, W, N>,
) -> (Status, Devices<R, W, N>)
    requires { AreOpen devices }
    ensures { OfList (uses wanted) list.now devices result.1 result.0 }
{
    match read_originators(list.as_bytes()) {
        Ok(originators) => {
            let mut all = Buffers::new(devices);
            let status = use_stream(
                alloc,
                wanted,
                originators,
                &mut all.reader,
                &mut all.out,
                &mut all.notes,
            );
            all.finish(status)
        }
        Err(wrong) => wrong_list(wrong, devices),
    }
}
