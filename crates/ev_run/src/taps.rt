//! The tap devices of which this process has descriptors. Another program opens them and starts
//! this one, as `evpnd-attach` does. Linux reports each descriptor in `/proc/self/fdinfo/N`. For a
//! tap device there is a row of two words:
//!
//! | word | holds | as |
//! |---|---|---|
//! | 1 | the name of the row | `iff:` |
//! | 2 | the name of the device | `tap0` |
ghost use Rattle.std.specs.Prelude.{◌≡◌, ◌≢◌, ◌≤◌, [], length, option_map, None, Some, Ok, Err, pos, IfOk};
ghost use Rattle.std.specs.Allocator.{alloc_error};
ghost use Rattle.ether_wire.specs.Ends.{Puts};
ghost use Rattle.ev_run.specs.RunEdges.{attach_text};
ghost use Rattle.ev_run.specs.Inner.Taps.{device_in, row_device, first_device, device_of, is_named, tap_named};

use crate::settling::field_at;
use crate::system_drops::names;
use ether_wire::{Device, Out};
use ev_links::{DeviceName, Tap};
use std::alloc::{AllocError, Global};
use std::fs::{File, Files};
use std::io;
use std::io::{ErrorKind, Read};

/// The descriptors that may be of devices: those below are the standard streams.
const FIRST: i32 = 3;

/// The number of descriptors that are looked at: more than the 4,096 ports of a configuration.
const MOST_DESCRIPTORS: i32 = 8192;

/// The most octets that are read of a descriptor's text, which has some 100.
const MOST: usize = 1024;

/// The reason why a device can't be used.
#[derive(Clone, Copy, Debug, PartialEq, Eq)]
pub enum AttachError {
    /// This process has no descriptor of it.
    Missing,
    /// This process has as many descriptors as it is allowed, so that it can't search for the
    /// device's.
    NoDescriptor,
    /// The system doesn't report this process's descriptors.
    Unreported,
}

impl AttachError {
    /// Returns the text of the reason, which follows the device in a message.
    fn reason(self) -> &'static [u8]
        ensures { result.now ≡ attach_text self }
    {
        match self {
            AttachError::Missing => {
                b": evpnd has no descriptor of it; start evpnd by evpnd-attach\n"
            }
            AttachError::NoDescriptor => b": too many files are open; raise ulimit -n\n",
            AttachError::Unreported => b": evpnd can't read /proc/self/fdinfo\n",
        }
    }
}

/// The tap devices of which this process has descriptors.
#[derive(Drop)]
pub(crate) struct Taps {
    /// Those that were found.
    pub(crate) found: Vec<Tap>,
    /// The reason why any other device can't be used.
    pub(crate) others: AttachError,
}

impl Taps {
    /// Returns no devices.
    pub(crate) fn none(alloc: Global) -> Taps
        ensures found { result.found.items ≡ [] }
        ensures others { result.others ≡ AttachError.Missing }
    {
        Taps {
            found: Vec::new(alloc),
            others: AttachError::Missing,
        }
    }
}

/// Returns the device that a word names, if there is one.
fn device_in(word: Option<&[u8]>) -> Option<DeviceName>
    ensures { result ≡ device_in (option_map (λ word. word.now) word.entry) }
{
    match word {
        Some(word) => DeviceName::read_text(word),
        None => None,
    }
}

/// Returns the device that a row names, or `None` if it names none.
fn row_device(row: &[u8]) -> Option<DeviceName>
    ensures { result ≡ row_device row.now }
{
    if names(b"iff:", field_at(row, 0)) {
        device_in(field_at(row, 1))
    } else {
        None
    }
}

/// Returns the first of two devices.
fn first_device(found: Option<DeviceName>, next: Option<DeviceName>) -> Option<DeviceName>
    ensures { result ≡ first_device found next }
{
    match found {
        Some(name) => Some(name),
        None => next,
    }
}

/// Returns the device that the text of a descriptor names, or `None` if the descriptor is of
/// something else.
pub(crate) fn device_of(text: &[u8]) -> Option<DeviceName>
    ensures { result ≡ device_of text.now }
{
    text.split(|octet| *octet == b'\n')
        .fold(None, |found: Option<DeviceName>, row| {
            first_device(found, row_device(row))
        })
}

/// Reads the text of a descriptor to the front of the buffer, and returns its number of octets.
fn read_text<R: Files>(
    rt: &R,
    alloc: Global,
    descriptor: i32,
    buffer: &mut [u8],
) -> io::Result<usize>
    ensures { IfOk result (λ size. size ≤ length buffer.new) }
{
    let path = format!(in alloc; "/proc/self/fdinfo/{descriptor}")?;
    let mut file = File::open(rt, path.as_str())?;
    file.read(buffer)
}

/// Returns why a device can't be used if this error hid the text of a descriptor, which may be its
/// own. Returns `None` if the error is that there is no such descriptor. Linux numbers EMFILE 24.
///
/// # Errors
///
/// `AllocError` if memory is refused.
pub(crate) fn others_of(
    kind: ErrorKind,
    number: Option<i32>,
) -> Result<Option<AttachError>, AllocError>
    ensures closed { kind ≡ ErrorKind.NotFound → result ≡ Ok None }
    ensures memory { kind ≡ ErrorKind.OutOfMemory → result ≡ Err alloc_error }
    ensures full { kind ≢ ErrorKind.NotFound → kind ≢ ErrorKind.OutOfMemory
        → number ≡ Some (pos 24) → result ≡ Ok (Some AttachError.NoDescriptor) }
    ensures other { kind ≢ ErrorKind.NotFound → kind ≢ ErrorKind.OutOfMemory
        → number ≢ Some (pos 24) → result ≡ Ok (Some AttachError.Unreported) }
{
    if kind == ErrorKind::NotFound {
        Ok(None)
    } else if kind == ErrorKind::OutOfMemory {
        Err(AllocError)
    } else if number == Some(libc::EMFILE) {
        Ok(Some(AttachError::NoDescriptor))
    } else {
        Ok(Some(AttachError::Unreported))
    }
}

/// Adds the tap device of a descriptor, unless the descriptor is of something else or isn't open.
fn add_tap<R: Files>(
    rt: &R,
    alloc: Global,
    descriptor: i32,
    taps: &mut Taps,
) -> Result<(), AllocError> {
    let mut buffer = [0u8; MOST];
    match read_text(rt, alloc, descriptor, &mut buffer) {
        Ok(size) => {
            if let Some(name) = device_of(&buffer[..size]) {
                taps.found.push(Tap::new(descriptor, name))?;
            }
        }
        Err(error) => {
            if let Some(others) = others_of(error.kind(), error.raw_os_error())? {
                taps.others = others;
            }
        }
    }
    Ok(())
}

/// Returns the tap devices of which this process has descriptors.
///
/// # Errors
///
/// `AllocError` if memory is refused.
pub(crate) fn all_taps<R: Files>(rt: &R, alloc: Global) -> Result<Taps, AllocError> {
    let mut taps = Taps::none(alloc);
    for descriptor in FIRST..FIRST + MOST_DESCRIPTORS {
        add_tap(rt, alloc, descriptor, &mut taps)?;
    }
    Ok(taps)
}

/// Returns `true` if a tap device has this name.
fn is_named(tap: &Tap, name: DeviceName) -> bool
    ensures { result ≡ is_named name tap.now }
{
    tap.name() == name
}

/// Writes why a device can't be used.
pub(crate) fn put_attach_error<N: Out>(notes: &mut N, why: AttachError) -> Result<(), Device>
    ensures { Puts (N.end notes.old) (N.end notes.new) (attach_text why) result }
{
    notes.put(why.reason())
}

/// Returns the first of these tap devices with this name.
pub(crate) fn tap_named(taps: &[Tap], name: DeviceName) -> Option<Tap>
    ensures { result ≡ tap_named taps.now name }
{
    for tap in taps {
        if is_named(tap, name) {
            return Some(*tap);
        }
    }
    None
}
