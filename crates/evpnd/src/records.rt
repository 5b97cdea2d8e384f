//! The subcommands on a stream of records, and the message if the stream is text.
#![tactic(auto, using(ether_wire::proofs::Appending::with_text_twice, ether_wire::proofs::Appending::with_text_none))]

ghost use Rattle.std.specs.Prelude.{◌≡◌, ◌+◌, ◌<◌, ◌^◌, ◌&&◌, ◌==◌, not, nat_lt, is_ok, if◌then◌else◌};
ghost use Rattle.ev_report.specs.Ends.{AreOpen, devices};
ghost use Rattle.ev_report.specs.Usage.{OfList, uses};
ghost use Rattle.evpnd.specs.Records.{is_printed, is_text, Hints, HintsOn, Hinted};
ghost use Rattle.evpnd.specs.Inner.Seen.{first_seen, seen_end};
ghost use Rattle.ev_report.specs.declared.status.Status.TheVariants as statuses;
ghost use Rattle.ev_report.specs.Status.{is_broken};

use crate::seen::Seen;
use ether_wire::{Device, In, Out};
use ev_report::{Devices, Status, StreamUse, use_records};
use std::alloc::Global;

/// Returns `true` if an octet is an ASCII character that can be printed, a tab, a line feed or a
/// carriage return.
fn is_printed(octet: u8) -> bool
    ensures { result ≡ is_printed octet }
{
    octet == b'\t' || octet == b'\n' || octet == b'\r' || (b' ' <= octet && octet <= b'~')
}

/// Returns `true` if a stream whose first octet is this one is text: the octet can be printed, and
/// isn't the `E` with which each record begins.
fn is_text(first: Option<u8>) -> bool
    ensures { result ≡ is_text first }
{
    match first {
        Some(octet) => octet != b'E' && is_printed(octet),
        None => false,
    }
}

/// Returns `true` if the message is due: the stream had a fault, it is text, and the notes have not
/// failed since they had this number of failures.
fn is_due(status: Status, first: Option<u8>, failures: u64, now: u64) -> bool
    ensures { result ≡ (is_broken status && (is_text first && not (nat_lt failures now))) }
{
    status.is_broken() && is_text(first) && now <= failures
}

/// Returns a status, unless a message could not be written.
fn told_status(status: Status, told: Result<(), Device>) -> Status
    ensures { result ≡ (if is_ok told then status else statuses.Device) }
{
    match told {
        Ok(()) => status,
        Err(Device) => Status::Device,
    }
}

/// Reports that a stream with a fault and this first octet is text, if it is, and if the notes have
/// not failed since they had this number of failures. Returns the status, or 4 if that failed.
fn tell_text<N: Out>(first: Option<u8>, failures: u64, status: Status, notes: &mut N) -> Status
    requires { failures + 1 < 2 ^ 64 }
    ensures { Hints first failures (N.end notes.old) (N.end notes.new) status result }
{
    if !is_due(status, first, failures, notes.failures()) {
        return status;
    }
    let text = b"this is not a record stream; \
`examples/make_records` turns text into records\n";
    told_status(status, notes.put(text))
}

/// Returns devices whose reader remembers its first octet.
fn seeing<R: In, W: Out, N: Out>(devices: Devices<R, W, N>) -> Devices<Seen<R>, W, N>
    ensures { result ≡ devices }
{
    let Devices { reader, out, notes } = devices;
    Devices {
        reader: Seen::new(reader),
        out,
        notes,
    }
}

/// Reports that the stream of a reader is text, if it is. Returns the status and the devices.
fn tell_hint<R: In, W: Out, N: Out>(
    failures: u64,
    status: Status,
    reader: Seen<R>,
    out: W,
    notes: N,
) -> (Status, Devices<R, W, N>)
    requires { failures + 1 < 2 ^ 64 }
    ensures { HintsOn (first_seen reader) failures
        (devices (seen_end R.end reader) (W.end out) (N.end notes)) result.1 status result.0 }
{
    let mut notes = notes;
    let status = tell_text(reader.first(), failures, status, &mut notes);
    let reader = reader.into_inner();
    (status, Devices { reader, out, notes })
}

/// Uses the records of the originators that a list names, and reports whether the stream is text.
pub(crate) fn on_records<R: In, W: Out, N: Out>(
    alloc: Global,
    wanted: StreamUse,
    list: &str,
    devices: Devices<R, W, N>,
) -> (Status, Devices<R, W, N>)
    requires { AreOpen devices }
    ensures { Hinted (OfList (uses wanted) list.now) devices result.1 result.0 }
{
    let failures = devices.notes.failures();
    let (status, devices) = use_records(alloc, wanted, list, seeing(devices));
    let Devices { reader, out, notes } = devices;
    tell_hint(failures, status, reader, out, notes)
}
