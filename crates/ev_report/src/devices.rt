//! The devices of a program: a reader and two writers.
#![tactic(auto, using(ether_wire::proofs::Appending::with_text_twice, ether_wire::proofs::Appending::with_text_none))]

ghost use Rattle.std.specs.Prelude.{◌≡◌, ◌+◌, ◌<◌, ◌^◌, ◌&&◌, if◌then◌else◌};
ghost use Rattle.ether_wire.specs.Buffered.{buffered_end};
ghost use Rattle.ev_report.specs.Ends.{devices, Finishes, Passes};
ghost use Rattle.ev_report.specs.declared.status.Status.TheVariants as statuses;

use crate::status::Status;
use ether_wire::{Buffered, In, Out};
use std::marker::Model;

/// A program's input, output and notes, each as a contract sees it.
#[derive(Drop)]
pub struct Devices<R: In, W: Out, N: Out> {
    /// Its input.
    pub reader: R,
    /// Its output.
    pub out: W,
    /// The notes, for messages about faults.
    pub notes: N,
}

impl<R: In, W: Out, N: Out> Model for Devices<R, W, N> {
    ghost use Rattle.ev_report.specs.Ends as ends;

    ghost Value = { ends.Devices };

    ghost view = { λ d. ends.devices (R.end d.reader) (W.end d.out) (N.end d.notes) };
}

/// Devices with buffered writers: `out` and `notes` here hold their text, so that the inner writers
/// get few and large writes.
pub struct Buffers<R, W, N> {
    /// Their reader.
    pub reader: R,
    /// What holds octets for the output.
    pub out: Buffered<W>,
    /// What holds octets for the notes.
    pub notes: Buffered<N>,
    /// How often the output had failed before.
    out_failures: u64,
    /// How often the notes had failed before.
    notes_failures: u64,
}

/// Passes the buffered text to a writer and returns the writer, with `true` if no call of it has
/// failed since it had this many failures. After a failed call it makes none.
fn finish<W: Out>(out: Buffered<W>, failures: u64) -> (W, bool)
    requires { failures + 1 < 2 ^ 64 }
    ensures { Finishes failures (buffered_end W.end out) (W.end result.0) result.1 }
{
    if out.failures() != failures {
        return (out.abandon(), false);
    }
    let (out, result) = out.finish();
    (out, result.is_ok())
}

/// The status so far, unless a writer has failed since.
fn last_status(is_written: bool, is_noted: bool, status: Status) -> Status
    ensures { result ≡ (if is_written && is_noted then status else statuses.Device) }
{
    if is_written && is_noted {
        status
    } else {
        Status::Device
    }
}

impl<R: In, W: Out, N: Out> Buffers<R, W, N> {
    ghost use Rattle.ev_report.specs.Ends as ends;

    /// These devices, with nothing held for them yet.
    pub fn new(devices: Devices<R, W, N>) -> Self
        ensures devices { devices
            ≡ ends.devices (R.end result.reader) (buffered_end W.end result.out)
            (buffered_end N.end result.notes) }
        ensures out { result.out_failures ≡ devices.out.failures }
        ensures notes { result.notes_failures ≡ devices.notes.failures }
    {
        let Devices { reader, out, notes } = devices;
        let (out_failures, notes_failures) = (out.failures(), notes.failures());
        Buffers {
            reader,
            out: Buffered::new(out),
            notes: Buffered::new(notes),
            out_failures,
            notes_failures,
        }
    }

    /// Passes the buffered texts to the devices and returns these, with the status: the one so far,
    /// or 4 if a call of a writer has failed. After a failed call of a writer it makes no further
    /// call of it.
    pub fn finish(self, status: Status) -> (Status, Devices<R, W, N>)
        requires out { self.out_failures + 1 < 2 ^ 64 }
        requires notes { self.notes_failures + 1 < 2 ^ 64 }
        ensures { Passes self.out_failures self.notes_failures
            (ends.devices (R.end self.reader) (buffered_end W.end self.out)
            (buffered_end N.end self.notes)) result.1 status result.0 }
    {
        let Buffers {
            reader,
            out,
            notes,
            out_failures,
            notes_failures,
        } = self;
        let (out, is_written) = finish(out, out_failures);
        let (notes, is_noted) = finish(notes, notes_failures);
        let status = last_status(is_written, is_noted, status);
        (status, Devices { reader, out, notes })
    }
}
