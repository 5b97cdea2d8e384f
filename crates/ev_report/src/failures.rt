//! Failed reads and writes, and the messages about them.
#![tactic(auto, using(ether_wire::proofs::Appending::with_text_twice, ether_wire::proofs::Appending::with_text_none))]

ghost use Rattle.std.specs.Prelude.{◌≡◌, ◌+◌, ◌<◌, ◌^◌};
ghost use Rattle.ether_wire.specs.Ends.{Puts};
ghost use Rattle.ev_report.specs.Failures.{failures_of, is_unread, is_unwritten, is_untold, text_if, failed_text, TellsFailed};

use crate::devices::Devices;
use ether_wire::{Device, In, Out};

/// How often each of the devices has failed.
#[derive(Clone, Copy, Debug)]
pub struct Failures {
    /// Of its input.
    pub input: u64,
    /// Of its output.
    pub out: u64,
    /// Of the notes.
    pub notes: u64,
}

impl Failures {
    /// Those of these devices so far.
    pub fn of<R: In, W: Out, N: Out>(devices: &Devices<R, W, N>) -> Failures
        ensures { result ≡ failures_of devices.now }
    {
        Failures {
            input: devices.reader.failures(),
            out: devices.out.failures(),
            notes: devices.notes.failures(),
        }
    }

    /// Whether a read has failed since.
    fn is_unread(self, now: Failures) -> bool
        ensures { result ≡ is_unread self now }
    {
        self.input < now.input
    }

    /// Whether a write of the output has failed since.
    fn is_unwritten(self, now: Failures) -> bool
        ensures { result ≡ is_unwritten self now }
    {
        self.out < now.out
    }

    /// Returns `true` if something has failed and can be reported: the notes have not failed.
    fn is_untold(self, now: Failures) -> bool
        ensures { result ≡ is_untold self now }
    {
        (self.is_unread(now) || self.is_unwritten(now)) && now.notes <= self.notes
    }
}

/// Writes a text where it is so.
fn put_if<N: Out>(is_so: bool, text: &[u8], notes: &mut N) -> Result<(), Device>
    ensures { Puts (N.end notes.old) (N.end notes.new) (text_if is_so text.now) result }
{
    if is_so { notes.put(text) } else { Ok(()) }
}

/// Writes a line for each of input and output that failed.
fn put_failed<N: Out>(is_unread: bool, is_unwritten: bool, notes: &mut N) -> Result<(), Device>
    ensures { Puts (N.end notes.old) (N.end notes.new) (failed_text is_unread is_unwritten) result }
{
    put_if(is_unread, b"standard input: it can't be read\n", notes)?;
    put_if(
        is_unwritten,
        b"standard output: it can't be written\n",
        notes,
    )
}

/// Prints whether reading or writing has failed since the devices had these failures. If the notes
/// have failed, nothing can be printed; if nothing failed, no call is made.
pub fn tell_failed<R: In, W: Out, N: Out>(
    before: Failures,
    devices: Devices<R, W, N>,
) -> Devices<R, W, N>
    requires { before.notes + 1 < 2 ^ 64 }
    ensures { TellsFailed before devices result }
{
    let now = Failures::of(&devices);
    if !before.is_untold(now) {
        return devices;
    }
    let mut devices = devices;
    let _ = put_failed(
        before.is_unread(now),
        before.is_unwritten(now),
        &mut devices.notes,
    );
    devices
}
