//! Tap devices: network devices of Linux whose frames a program reads and writes.
ghost use Rattle.std.specs.Prelude.{◌≡◌, ◌≤◌, length, IfOk};
ghost use Rattle.ev_links.specs.Tap.{descriptor_of, name_of};
ghost use Rattle.ev_links.specs.Inner.Tap.{may_repeat, transfer_of, is_frame, frame_by, FitsIn};

use crate::device_name::DeviceName;
use ether_wire::{Addr, Device};
use libc::net::{POLLIN, POLLOUT, poll};
use libc::types::pollfd;
use libc::{EAGAIN, EINTR};

/// For how many milliseconds a link waits for a frame before it reads the flag that ends it.
const READ_LIMIT: i32 = 1000;

/// For how many milliseconds a send waits for room in the device's queue.
const SEND_LIMIT: i32 = 500;

/// A tap device, by the number of a descriptor that stays open while the program runs.
///
/// A read of the descriptor takes one frame that the system sends out of the device. A write gives
/// the system one frame as received from the device. The program that opens the descriptor has to
/// set it up as follows:
///
/// - `IFF_TAP` and `IFF_NO_PI` are set and `IFF_VNET_HDR` is not: then nothing precedes a frame.
/// - The send buffer is not limited (`TUNSETSNDBUF`), as by default. If more than half of a limited
///   one is in use, the device looks as if it were down.
/// - `O_NONBLOCK` is set. Frames still come and go if it isn't. But then a read waits for the next
///   frame, however long: its link reads the flag that ends it only after that frame, notices only
///   then that a failed device works again, and never that a device is down. A write that should
///   not wait may wait.
#[derive(Clone, Copy, Debug, PartialEq, Eq)]
pub struct Tap {
    descriptor: i32,
    name: DeviceName,
}

/// What a read or a write of a device did.
#[derive(Clone, Copy, Debug, PartialEq, Eq)]
pub(crate) enum Transfer {
    /// It moved a frame with this many octets.
    Frame(usize),
    /// It moved no frame, but a later call may: this one would have waited, or a signal came.
    NotReady,
    /// It failed.
    Failed,
}

impl Transfer {
    /// Returns `true` if a frame was moved.
    fn is_frame(self) -> bool
        ensures { result ≡ is_frame self }
    {
        matches!(self, Transfer::Frame(_))
    }

    /// Returns the size of the frame that a read brought, and 0.0.0.0 as its sender. If no frame
    /// waits, the size is 0.
    pub(crate) fn frame(self) -> Result<(usize, Addr), Device>
        ensures { result ≡ frame_by self }
    {
        match self {
            Transfer::Frame(size) => Ok((size, Addr::default())),
            Transfer::NotReady => Ok((0, Addr::default())),
            Transfer::Failed => Err(Device),
        }
    }
}

/// Returns `true` if this error says only that the call would have waited (EAGAIN, which is also
/// EWOULDBLOCK), or that a signal came first (EINTR).
fn may_repeat(error: i32) -> bool
    ensures { result ≡ may_repeat error }
{
    error == EAGAIN || error == EINTR
}

/// Returns what a call did, by the number that the system returned and the number of its last
/// error. No frame is empty: a read that returns 0 is at the end of something else, and failed.
fn transfer_of(returned: isize, error: i32) -> Transfer
    ensures { result ≡ transfer_of returned error }
{
    if returned > 0 {
        Transfer::Frame(returned as usize)
    } else if returned < 0 && may_repeat(error) {
        Transfer::NotReady
    } else {
        Transfer::Failed
    }
}

impl Tap {
    /// Returns the device of an open descriptor.
    pub fn new(descriptor: i32, name: DeviceName) -> Self
        ensures descriptor { descriptor_of result ≡ descriptor }
        ensures name { name_of result ≡ name }
    {
        Tap { descriptor, name }
    }

    /// Returns the name of the device.
    pub fn name(&self) -> DeviceName
        ensures { result ≡ name_of self.now }
    {
        self.name
    }

    /// Reads a frame. A longer frame is cut to the buffer's length.
    pub(crate) fn read(self, buffer: &mut [u8]) -> Transfer
        ensures { FitsIn (length buffer.new) result }
    {
        let returned = libc::read(self.descriptor, buffer);
        transfer_of(returned, os::errno())
    }

    /// Writes a frame.
    ///
    /// The system takes frames that are longer than the device's MTU. It refuses those of fewer
    /// than 14 octets (`EINVAL`), and all while the device is down (`EIO`).
    fn write(self, octets: &[u8]) -> Transfer
        ensures { FitsIn (length octets.now) result }
    {
        let returned = libc::write(self.descriptor, octets);
        transfer_of(returned, os::errno())
    }

    /// Waits until the device is ready for one of these events, but no longer than `milliseconds`.
    /// Returns `true` if it is.
    fn is_ready(self, events: i16, milliseconds: i32) -> bool {
        let mut polled = [pollfd {
            fd: self.descriptor,
            events,
            revents: 0,
        }];
        poll(&mut polled, milliseconds) > 0 && polled[0].revents & events != 0
    }

    /// Returns `true` if a frame waits at the device. It stays there.
    pub(crate) fn has_frame(self) -> bool {
        self.is_ready(POLLIN, 0)
    }

    /// Returns `true` if the device is up. While it is down, a read finds no frame and doesn't
    /// fail, but a poll reports no room for a write.
    fn is_up(self) -> bool {
        self.is_ready(POLLOUT, 0)
    }

    /// Waits for a frame for at most a second. Returns `false` if none came and the device is down
    /// or deleted.
    pub(crate) fn wait_for_frame(self) -> bool {
        self.is_ready(POLLIN, READ_LIMIT) || self.is_up()
    }

    /// Reads a frame without waiting. If none waits and the device is up, returns an empty one.
    /// Fails if the device is down or deleted.
    pub(crate) fn recv_now(self, buffer: &mut [u8]) -> Result<(usize, Addr), Device>
        ensures { IfOk result (λ r. r.0 ≤ length buffer.new) }
    {
        let read = self.read(buffer);
        if read == Transfer::NotReady && !self.is_up() {
            return Err(Device);
        }
        read.frame()
    }

    /// Sends a frame. If the device's queue is full, waits for room for at most half a second.
    pub(crate) fn send(self, octets: &[u8]) -> Result<(), Device> {
        let mut sent = self.write(octets);
        if sent == Transfer::NotReady {
            let _ = self.is_ready(POLLOUT, SEND_LIMIT);
            sent = self.write(octets);
        }
        if sent.is_frame() { Ok(()) } else { Err(Device) }
    }

    /// Sends a frame by one write, which doesn't wait unless the descriptor blocks. Returns `true`
    /// exactly if the system took the frame.
    pub(crate) fn send_now(self, octets: &[u8]) -> bool {
        self.write(octets).is_frame()
    }
}
