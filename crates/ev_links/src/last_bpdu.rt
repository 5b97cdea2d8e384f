//! The last BPDU of a port, which is received again while the port is flooded.
ghost use Rattle.std.specs.Prelude.{◌≡◌, ◌+◌, ◌≤◌, ◌&&◌, ◌++◌, ◌%◌, ◌==◌, ◌-◌, [], true, false, length, take, nat_lt, nat_le, if◌then◌else◌};
ghost use Rattle.ev_links.specs.Inner.LastBpdu.{is_kept, is_to_bridges, without_claims, IsSameBpdu};

use ether_wire::{Addr, Frame, Mac, Piece};

/// The places of a message's type and of its flags in a frame: after the header of 14 octets and 3
/// of LLC come the protocol (2), the version (1), the type (1) and the flags (1).
const KIND: usize = 20;

const FLAGS: usize = 21;

/// The type of a topology change notification, which has no vector.
const NOTIFICATION: u8 = 0x80;

/// The two bits of the role of the sender's port.
const ROLE_BITS: u8 = 0x0c;

/// The most octets of a frame that is kept. A BPDU of RSTP has 60, and one of MSTP 16 more for each
/// of its instances.
const MOST_KEPT: usize = 256;

/// After that many other datagrams the BPDU is due. An edge with a fiftieth of a processor receives
/// as many in a second or two.
const DUE_AFTER: u32 = 256;

/// Before one in that many datagrams the link looks whether the socket is empty.
const SAMPLE: u32 = 16;

/// For how many seconds a BPDU counts: three Hello times of two seconds. Then a port ages its
/// neighbour (IEEE 802.1D-2004, 17.21.23).
const MOST_AGE: u64 = 6;

/// The last BPDU of a port, and how many other datagrams the port received since, without having
/// found its socket empty.
///
/// A flood fills the receive buffer of a port's socket. The system then drops BPDUs with the other
/// datagrams. A port that receives nothing of its neighbour would open after some seconds, and
/// frames might run in a circle. So the port receives the last message again, without the flags by
/// which that announced a topology change, proposed or agreed, and only if it received the message
/// or its repetition some seconds ago at most.
#[derive(Drop)]
pub(crate) struct LastBpdu {
    frame: Piece<MOST_KEPT>,
    from: Addr,
    others: u32,
    /// The second in which the port received the BPDU, for the first time or again.
    second: u64,
}

/// Returns `true` if a frame goes to the bridge group, and its message has a vector.
pub(crate) fn is_kept(octets: &[u8]) -> bool
    ensures { result ≡ is_kept octets.now }
{
    if octets.len() <= FLAGS || octets.len() > MOST_KEPT || octets[KIND] == NOTIFICATION {
        return false;
    }
    match Frame::read(octets) {
        Ok(frame) => frame.destination() == Mac::bridge_group(),
        Err(_) => false,
    }
}

/// Puts octets, for which there is room, after the others.
fn put(frame: &mut Piece<MOST_KEPT>, octets: &[u8])
    requires { length frame.old + length octets.now ≤ 256 }
    ensures { frame.new ≡ frame.old ++ octets.now }
{
    let _ = frame.try_put(octets);
}

impl LastBpdu {
    /// Returns that of a port that has received none.
    pub(crate) fn none() -> Self
        ensures { result.frame ≡ [] }
    {
        LastBpdu {
            frame: Piece::new(),
            from: Addr::default(),
            others: 0,
            second: 0,
        }
    }

    /// Forgets the BPDU.
    pub(crate) fn forget(&mut self)
        ensures { self.new.frame ≡ [] }
    {
        self.frame.clear();
    }

    /// Keeps a frame that the port received in this second, with no flags but the role.
    pub(crate) fn keep(&mut self, octets: &[u8], from: Addr, second: u64)
        requires { is_kept octets.now ≡ true }
        ensures frame { self.new.frame ≡ without_claims octets.now }
        ensures from { self.new.from ≡ from }
        ensures others { self.new.others ≡ 0 }
        ensures second { self.new.second ≡ second }
    {
        self.frame.clear();
        put(&mut self.frame, &octets[..FLAGS]);
        put(&mut self.frame, &[octets[FLAGS] & ROLE_BITS]);
        put(&mut self.frame, &octets[FLAGS + 1..]);
        self.from = from;
        self.others = 0;
        self.second = second;
    }

    /// Counts another datagram.
    pub(crate) fn count(&mut self)
        ensures others { self.new.others
            ≡ (if nat_lt self.old.others 256 then self.old.others + 1 else 256) }
        ensures same { IsSameBpdu self.old self.new }
    {
        if self.others < DUE_AFTER {
            self.others += 1;
        } else {
            self.others = DUE_AFTER;
        }
    }

    /// Returns `true` if the port has received a BPDU, and many other datagrams since.
    pub(crate) fn is_due(&self) -> bool
        ensures { result ≡ (nat_le 256 self.now.others && nat_lt 0 (length self.now.frame)) }
    {
        self.others >= DUE_AFTER && !self.frame.is_empty()
    }

    /// Returns `true` if the BPDU still counts in this second.
    pub(crate) fn is_fresh(&self, second: u64) -> bool
        ensures { result ≡ nat_le (second - self.now.second) 6 }
    {
        second.saturating_sub(self.second) <= MOST_AGE
    }

    /// Returns `true` if the link has to look whether the socket is empty.
    pub(crate) fn is_sample(&self) -> bool
        ensures { result ≡ (self.now.others % 16 == 15) }
    {
        self.others % SAMPLE == SAMPLE - 1
    }

    /// Counts other datagrams from 0 again.
    pub(crate) fn restart(&mut self)
        ensures same { IsSameBpdu self.old self.new }
        ensures others { self.new.others ≡ 0 }
    {
        self.others = 0;
    }

    /// Copies the BPDU to the front of the buffer, cut to the buffer's length, as received in this
    /// second. Counts other datagrams from 0 again. Returns the number of octets and the sender.
    pub(crate) fn again(&mut self, buffer: &mut [u8], second: u64) -> (usize, Addr)
        ensures fits { result.0 ≤ length buffer.new }
        ensures frame { take result.0 buffer.new ≡ take (length buffer.old) self.old.frame }
        ensures sender { result.1 ≡ self.old.from }
        ensures same { (self.new.frame ≡ self.old.frame) × (self.new.from ≡ self.old.from) }
        ensures others { self.new.others ≡ 0 }
        ensures second { self.new.second ≡ second }
    {
        self.others = 0;
        self.second = second;
        let octets = self.frame.octets();
        let size = if octets.len() < buffer.len() {
            octets.len()
        } else {
            buffer.len()
        };
        buffer[..size].copy_from_slice(&octets[..size]);
        (size, self.from)
    }
}
