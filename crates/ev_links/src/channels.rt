//! Links over channels.
ghost use Rattle.std.specs.Prelude.{◌≡◌, ◌≤◌, length, take, min, IfOk};

use crate::links::{LinkIn, LinkOut, PromptOut};
use crossbeam_channel::{Receiver, Sender};
use ether_wire::{Addr, Device};
use std::alloc::{AllocError, Global};
use std::sync::Wait;

/// A datagram over a channel.
#[derive(Debug, Drop)]
pub struct Datagram {
    /// The sender's address.
    pub from: Addr,
    /// The destination address.
    pub to: Addr,
    /// The octets of the datagram.
    pub octets: Vec<u8>,
}

/// A link that receives datagrams from a channel. It ends when the channel has no sender left.
#[derive(Drop)]
pub struct ChannelIn<'x, R> {
    rt: &'x R,
    datagrams: Receiver<Datagram>,
    failures: u64,
}

impl<'x, R: Wait> ChannelIn<'x, R> {
    /// Creates a link that receives from this channel.
    pub fn new(rt: &'x R, datagrams: Receiver<Datagram>) -> Self
        ensures { result.failures ≡ 0 }
    {
        ChannelIn {
            rt,
            datagrams,
            failures: 0,
        }
    }
}

/// Copies octets to the front of the buffer, cut to its length, and returns the number of octets
/// there.
fn put_front(buffer: &mut [u8], octets: &[u8]) -> usize
    ensures fits { result ≤ length buffer.new }
    ensures size { result ≡ min (length octets.now) (length buffer.old) }
    ensures front { take result buffer.new ≡ take result octets.now }
{
    let size = octets.len().min(buffer.len());
    buffer[..size].copy_from_slice(&octets[..size]);
    size
}

impl<R: Wait> LinkIn for ChannelIn<'_, R> {
    ghost use Rattle.std.specs.Prelude.{None};

    ghost failed = { λ c. c.failures };

    ghost came = { λ c. None };

    fn failures(&self) -> u64 {
        self.failures
    }

    fn recv(&mut self, buffer: &mut [u8]) -> Result<Option<(Addr, usize)>, Device> {
        match self.datagrams.recv(self.rt) {
            Ok(datagram) => {
                let size = put_front(buffer, datagram.octets.as_slice());
                Ok(Some((datagram.from, size)))
            }
            Err(_) => Ok(None),
        }
    }
}

/// Returns a copy of octets.
fn copy(alloc: Global, octets: &[u8]) -> Result<Vec<u8>, AllocError>
    ensures { IfOk result (λ copy. copy.items ≡ octets.now) }
{
    let mut copy = Vec::with_capacity(alloc, octets.len())?;
    copy.extend_from_slice(octets)?;
    Ok(copy)
}

/// Returns the datagram that goes from one address to another, with a copy of the octets.
fn addressed(alloc: Global, from: Addr, to: Addr, octets: &[u8]) -> Result<Datagram, AllocError>
    ensures { IfOk result (λ d. (d.from ≡ from) × (d.to ≡ to) × (d.octets.items ≡ octets.now)) }
{
    let octets = copy(alloc, octets)?;
    Ok(Datagram { from, to, octets })
}

/// A link that sends datagrams over a channel. Its one other end receives them all, whatever their
/// destination address is.
#[derive(Drop)]
pub struct ChannelOut<'x, R> {
    rt: &'x R,
    alloc: Global,
    from: Addr,
    datagrams: Sender<Datagram>,
    failures: u64,
}

impl<'x, R: Wait> ChannelOut<'x, R> {
    /// Creates a link that sends over this channel, from this address.
    pub fn new(rt: &'x R, alloc: Global, from: Addr, datagrams: Sender<Datagram>) -> Self
        ensures { result.failures ≡ 0 }
    {
        ChannelOut {
            rt,
            alloc,
            from,
            datagrams,
            failures: 0,
        }
    }
}

impl<R: Wait> LinkOut for ChannelOut<'_, R> {
    ghost use Rattle.std.specs.Prelude.{None};

    ghost failed = { λ c. c.failures };

    ghost sent = { λ o. None };

    fn failures(&self) -> u64 {
        self.failures
    }

    fn send(&mut self, to: Addr, octets: &[u8]) -> Result<(), Device> {
        let Ok(datagram) = addressed(self.alloc, self.from, to, octets) else {
            self.failures += 1;
            return Err(Device);
        };
        if self.datagrams.send(self.rt, datagram).is_err() {
            self.failures += 1;
            return Err(Device);
        }
        Ok(())
    }
}

impl<R> Clone for ChannelOut<'_, R> {
    fn clone(&self) -> Result<Self, AllocError> {
        Ok(ChannelOut {
            rt: self.rt,
            alloc: self.alloc,
            from: self.from,
            datagrams: self.datagrams.clone()?,
            failures: self.failures,
        })
    }
}

impl<R: Wait> PromptOut for ChannelOut<'_, R> {
    ghost use Rattle.std.specs.Prelude.{None};

    ghost tried = { λ c. None };

    fn send_now(&mut self, to: Addr, octets: &[u8]) -> bool {
        match addressed(self.alloc, self.from, to, octets) {
            Ok(datagram) => self.datagrams.try_send(self.rt, datagram).is_ok(),
            Err(_) => false,
        }
    }
}
