//! The standard streams, and the message for one that is closed when the program begins.
#![tactic(auto, using(ether_wire::proofs::Appending::with_text_twice, ether_wire::proofs::Appending::with_text_none))]

ghost use Rattle.std.specs.Prelude.{◌≡◌};
ghost use Rattle.ether_wire.specs.Ends.{Puts};
ghost use Rattle.ev_report.specs.Ends.{AreOpen};
ghost use Rattle.evpnd.specs.Checks.{desk};
ghost use Rattle.evpnd.specs.Files.{Shelf};
ghost use Rattle.evpnd.specs.Streams.{first_closed, closed_text, IsClosed};

use ether_wire::{Device, In, Out};
use ev_report::{Devices, Status};

/// A standard stream.
#[derive(Clone, Copy, Debug, PartialEq, Eq)]
pub(crate) enum Stream {
    /// Standard input, descriptor 0.
    Input,
    /// Standard output, descriptor 1.
    Output,
    /// Standard error, descriptor 2.
    Error,
}

/// Returns the first standard stream that is closed, if one is, by whether each of them is closed.
pub(crate) fn first_closed(
    is_input_closed: bool,
    is_output_closed: bool,
    is_error_closed: bool,
) -> Option<Stream>
    ensures { result ≡ first_closed is_input_closed is_output_closed is_error_closed }
{
    if is_input_closed {
        return Some(Stream::Input);
    }
    if is_output_closed {
        return Some(Stream::Output);
    }
    if is_error_closed {
        return Some(Stream::Error);
    }
    None
}

/// Writes `STREAM: it is closed`.
fn put_closed<N: Out>(notes: &mut N, stream: Stream) -> Result<(), Device>
    ensures { Puts (N.end notes.old) (N.end notes.new) (closed_text stream) result }
{
    match stream {
        Stream::Input => notes.put(b"standard input: it is closed\n"),
        Stream::Output => notes.put(b"standard output: it is closed\n"),
        Stream::Error => notes.put(b"standard error: it is closed\n"),
    }
}

/// Reports which stream is closed, so that nothing starts, and returns the status.
pub(crate) fn tell_closed<R: In, W: Out, N: Out>(
    stream: Stream,
    devices: Devices<R, W, N>,
) -> (Status, Devices<R, W, N>)
    requires { AreOpen devices }
    ensures { (shelf : Shelf) → IsClosed stream (desk shelf devices) (desk shelf result.1)
        result.0 }
{
    let mut devices = devices;
    let _ = put_closed(&mut devices.notes, stream);
    (Status::Device, devices)
}
