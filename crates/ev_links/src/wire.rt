//! Links that receive from a UDP socket or a tap device, or the seconds of a clock.
ghost use Rattle.std.specs.Prelude.{◌≡◌, ◌≤◌, true, false, length, Some, None, Ok, IfOk, IfSome, IsErr, MatchResult};
ghost use Rattle.ev_links.specs.Wire.{input_device, keeps_bpdus};

use crate::last_bpdu::{LastBpdu, is_kept};
use crate::links::LinkIn;
use crate::tap::{Tap, Transfer};
use crate::udp::{has_datagram, recv_datagram, recv_soon};
use ether_wire::{Addr, Device};
use std::net::UdpSocket;
use std::sync::atomic::{AtomicBool, Ordering};
use std::thread;
use std::time::{Clock, Duration};

/// The source of a wire's datagrams.
#[derive(Clone, Copy)]
enum WireSource<'x> {
    /// The datagrams that come to this socket.
    Socket(&'x UdpSocket),
    /// The frames that the system sends out of this device.
    Device(Tap),
    /// The seconds of the clock.
    Clock,
}

impl WireSource<'_> {
    /// Returns `true` if a datagram waits at the source. It stays there.
    fn has_datagram(self) -> bool {
        match self {
            WireSource::Socket(socket) => has_datagram(socket),
            WireSource::Device(tap) => tap.has_frame(),
            WireSource::Clock => false,
        }
    }
}

/// A link that receives the datagrams of a socket, the frames of a tap device or the seconds of a
/// clock, until a flag is set.
///
/// An empty datagram wakes a call that waits on the socket, which then reads the flag. A call that
/// waits on the device reads the flag once a second.
#[derive(Drop)]
pub struct Wire<'x, C> {
    source: WireSource<'x>,
    clock: &'x C,
    stop: &'x AtomicBool,
    failures: u64,
    /// `true` if the last call failed.
    is_failing: bool,
    /// The last BPDU, if the link is a port's.
    last_bpdu: Option<LastBpdu>,
}

impl<'x, C: Clock> Wire<'x, C> {
    /// Creates a link that receives from this socket. The clock measures the second that a call
    /// waits after a failure.
    pub fn socket(clock: &'x C, socket: &'x UdpSocket, stop: &'x AtomicBool) -> Self
        ensures failures { result.failures ≡ 0 }
        ensures device { input_device result ≡ None }
        ensures bpdus { keeps_bpdus result ≡ false }
    {
        Wire {
            source: WireSource::Socket(socket),
            clock,
            stop,
            failures: 0,
            is_failing: false,
            last_bpdu: None,
        }
    }

    /// Creates a link that receives from the socket of a port. While datagrams come faster than it
    /// receives them, it receives the port's last BPDU again from time to time: the system may drop
    /// those that come.
    pub fn port(clock: &'x C, socket: &'x UdpSocket, stop: &'x AtomicBool) -> Self
        ensures failures { result.failures ≡ 0 }
        ensures device { input_device result ≡ None }
        ensures bpdus { keeps_bpdus result ≡ true }
    {
        Wire {
            source: WireSource::Socket(socket),
            clock,
            stop,
            failures: 0,
            is_failing: false,
            last_bpdu: Some(LastBpdu::none()),
        }
    }

    /// Creates a link that receives the frames that the system sends out of this device. It also
    /// receives the last BPDU again, as that of a port does: the system drops frames while the
    /// device's queue is full. The sender's address is 0.0.0.0.
    pub fn device(clock: &'x C, tap: Tap, stop: &'x AtomicBool) -> Self
        ensures failures { result.failures ≡ 0 }
        ensures device { input_device result ≡ Some tap }
        ensures bpdus { keeps_bpdus result ≡ true }
    {
        Wire {
            source: WireSource::Device(tap),
            clock,
            stop,
            failures: 0,
            is_failing: false,
            last_bpdu: Some(LastBpdu::none()),
        }
    }

    /// Creates a link that receives the seconds of this clock.
    pub fn clock(clock: &'x C, stop: &'x AtomicBool) -> Self
        ensures failures { result.failures ≡ 0 }
        ensures device { input_device result ≡ None }
        ensures bpdus { keeps_bpdus result ≡ false }
    {
        Wire {
            source: WireSource::Clock,
            clock,
            stop,
            failures: 0,
            is_failing: false,
            last_bpdu: None,
        }
    }

    /// Waits for a second.
    fn sleep(&self) {
        thread::sleep(self.clock, Duration::from_secs(1));
    }

    /// Returns `true` if the flag is set.
    fn has_stopped(&self) -> bool {
        self.stop.load(Ordering::SeqCst)
    }

    /// Waits for a frame of the device. Reads the flag once a second meanwhile, and returns an
    /// empty datagram if it is set. Fails if a read does, or if the device is down.
    fn wait_for_frame(&self, tap: Tap, buffer: &mut [u8]) -> Result<(usize, Addr), Device>
        ensures { IfOk result (λ r. r.0 ≤ length buffer.new) }
    {
        for _turn in 0..u64::MAX {
            let read = tap.read(buffer);
            if read != Transfer::NotReady || self.has_stopped() {
                return read.frame();
            }
            if !tap.wait_for_frame() {
                return Err(Device);
            }
        }
        Ok((0, Addr::default()))
    }

    /// Waits for a datagram or a second. If no datagram comes for as long as a read waits, returns
    /// an empty one.
    fn wait(&self, buffer: &mut [u8]) -> Result<(usize, Addr), Device>
        ensures { IfOk result (λ r. r.0 ≤ length buffer.new) }
    {
        match self.source {
            WireSource::Socket(socket) => recv_datagram(socket, buffer),
            WireSource::Device(tap) => self.wait_for_frame(tap, buffer),
            WireSource::Clock => {
                self.sleep();
                Ok((0, Addr::default()))
            }
        }
    }

    /// Returns the second of the clock, or `None` if the clock fails.
    fn second(&self) -> Option<u64> {
        match self.clock.monotonic() {
            Ok(since) => Some(since.as_secs()),
            Err(_) => None,
        }
    }

    /// Returns the port's last BPDU once more, unless that is too long ago: then forgets it.
    fn again(&mut self, buffer: &mut [u8]) -> Option<(usize, Addr)>
        ensures fits { IfSome result (λ r. r.0 ≤ length buffer.new) }
        ensures failures { self.new.failures ≡ self.old.failures }
    {
        let second = self.second();
        match (&mut self.last_bpdu, second) {
            (Some(last), Some(second)) if last.is_fresh(second) => Some(last.again(buffer, second)),
            (Some(last), _) => {
                last.forget();
                None
            }
            (None, _) => None,
        }
    }

    /// Returns the port's last BPDU once more if it is due. It isn't if no datagram waits at the
    /// source, which this looks for from time to time.
    fn repeated(&mut self, buffer: &mut [u8]) -> Option<(usize, Addr)>
        ensures fits { IfSome result (λ r. r.0 ≤ length buffer.new) }
        ensures failures { self.new.failures ≡ self.old.failures }
    {
        let Some(last) = &mut self.last_bpdu else {
            return None;
        };
        if last.is_due() {
            return self.again(buffer);
        }
        if last.is_sample() && !self.source.has_datagram() {
            last.restart();
        }
        None
    }

    /// Keeps a BPDU that a port received, and counts any other datagram.
    fn note(&mut self, octets: &[u8], from: Addr)
        ensures { self.new.failures ≡ self.old.failures }
    {
        let second = if is_kept(octets) { self.second() } else { None };
        match (&mut self.last_bpdu, second) {
            (Some(last), Some(second)) => last.keep(octets, from, second),
            (Some(last), None) => last.count(),
            (None, _) => {}
        }
    }

    /// Returns the port's last BPDU once more if it is due, or waits for a datagram and notes it.
    fn next(&mut self, buffer: &mut [u8]) -> Result<(usize, Addr), Device>
        ensures fits { IfOk result (λ r. r.0 ≤ length buffer.new) }
        ensures failures { self.new.failures ≡ self.old.failures }
    {
        if let Some(again) = self.repeated(buffer) {
            return Ok(again);
        }
        let (size, from) = self.wait(buffer)?;
        if self.last_bpdu.is_some() {
            self.note(&buffer[..size], from);
        }
        Ok((size, from))
    }

    /// Waits for a second, and then checks whether a read still fails. The read waits for at most a
    /// millisecond at a socket, and not at all at a device: if no datagram comes, the source works,
    /// too.
    fn wait_again(&self, buffer: &mut [u8]) -> Result<(usize, Addr), Device>
        ensures { IfOk result (λ r. r.0 ≤ length buffer.new) }
    {
        self.sleep();
        match self.source {
            WireSource::Socket(socket) => recv_soon(socket, buffer),
            WireSource::Device(tap) => tap.recv_now(buffer),
            WireSource::Clock => Ok((0, Addr::default())),
        }
    }
}

/// Returns the datagram that a read of a wire brought, even if it is empty, or `Device` if the read
/// failed.
fn heard(got: Result<(usize, Addr), Device>) -> Result<Option<(Addr, usize)>, Device>
    ensures { MatchResult got (λ r. result ≡ Ok (Some (r.1, r.0))) (λ e. IsErr result) }
{
    match got {
        Ok((size, from)) => Ok(Some((from, size))),
        Err(_) => Err(Device),
    }
}

impl<C: Clock> LinkIn for Wire<'_, C> {
    ghost use Rattle.std.specs.Prelude.{None};

    ghost failed = { λ w. w.failures };

    ghost came = { λ w. None };

    fn failures(&self) -> u64 {
        self.failures
    }

    fn recv(&mut self, buffer: &mut [u8]) -> Result<Option<(Addr, usize)>, Device> {
        let got = if self.is_failing {
            self.wait_again(buffer)
        } else {
            self.next(buffer)
        };
        if self.has_stopped() {
            return Ok(None);
        }
        self.is_failing = got.is_err();
        if self.is_failing {
            self.failures += 1;
        }
        heard(got)
    }
}
