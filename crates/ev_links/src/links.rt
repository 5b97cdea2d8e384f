//! Traits of links, which receive and send datagrams: an access port, a tunnel's socket, a clock.
ghost use Rattle.std.specs.Prelude.{◌≡◌, ℕ, ◌+◌, ◌^◌, ◌<◌, ◌≤◌, ◌∷◌, [], Option, List, length, is_err, if◌then◌else◌, IfOk, IfSome};
ghost use Rattle.ev_links.specs.Coming.{behind};
ghost use Rattle.ev_links.specs.Links.{Call, Packet, Try, brought, sent_by, packet, a_try};

use ether_wire::{Addr, Device};

/// A link that receives datagrams.
pub trait LinkIn {
    /// The number of failed calls.
    ghost failed: { Self → ℕ };

    /// The history of the link, in order: each datagram, each failed call, and `None` for the end.
    /// A link may have no history.
    ghost came: { Self → Option (List (Option Call)) };

    /// Returns the number of calls that have failed so far.
    fn failures(&self) -> u64
        ensures { result ≡ failed self.now };

    /// Waits for the next datagram and copies it to the front of the buffer, cut to the buffer's
    /// length. Returns the sender's address and the number of octets in the buffer, or `None` at
    /// the end. An empty datagram means only that the link works. A call after a failed one first
    /// waits for a second, so that a link that keeps failing costs its worker nothing.
    ///
    /// # Errors
    ///
    /// `Device` exactly if the call raises `failures` by one.
    fn recv(&mut self, buffer: &mut [u8]) -> Result<Option<(Addr, usize)>, Device>
        requires { failed self.old + 1 < 2 ^ 64 }
        ensures fits { IfOk result (λ r. IfSome r (λ p. p.1 ≤ length buffer.new)) }
        ensures came { came self.new ≡ behind (came self.old) (brought result buffer.new) }
        ensures failed { failed self.new ≡ failed self.old + (if is_err result then 1 else 0) };
}

/// A link that sends datagrams.
pub trait LinkOut {
    /// The number of failed calls.
    ghost failed: { Self → ℕ };

    /// The history of the link: the datagrams that were sent, in order. A link may have no history.
    ghost sent: { Self → Option (List Packet) };

    /// Returns the number of calls that have failed so far.
    fn failures(&self) -> u64
        ensures { result ≡ failed self.now };

    /// Sends a datagram to this address. A link with only one other end ignores the address.
    ///
    /// # Errors
    ///
    /// `Device` exactly if the call raises `failures` by one. The datagram is lost then.
    fn send(&mut self, to: Addr, octets: &[u8]) -> Result<(), Device>
        requires { failed self.old + 1 < 2 ^ 64 }
        ensures sent { sent self.new ≡ behind (sent self.old) (sent_by to octets.now result) }
        ensures failed { failed self.new ≡ failed self.old + (if is_err result then 1 else 0) };
}

/// A link that can send a datagram without waiting, by a handle of its own. A clone is one more
/// handle of the same link.
pub trait PromptOut: Clone {
    /// The history of this handle, in order: each datagram that it was to send, and whether it did.
    /// A handle may have no history.
    ghost tried: { Self → Option (List Try) };

    /// Sends a datagram to this address if the link takes it without waiting. Returns `true`
    /// exactly if it was sent. Otherwise nothing was sent, for whatever reason: a caller that then
    /// sends the datagram by `LinkOut` finds out whether the link fails.
    fn send_now(&mut self, to: Addr, octets: &[u8]) -> bool
        ensures { tried self.new
            ≡ behind (tried self.old) (a_try (packet to octets.now) result ∷ []) };
}
