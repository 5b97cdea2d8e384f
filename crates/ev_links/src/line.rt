//! The queue of a link: BPDUs, and frames after them, as far as there is room.
ghost use Rattle.std.specs.Prelude.{◌≡◌, ◌+◌, ◌≤◌, ◌&&◌, ◌||◌, nat_lt, nat_le, length, take, IfOk, IfSome};
ghost use Rattle.ev_links.specs.Links.{packet};
ghost use Rattle.ev_links.specs.Line.{sourced, nothing_waits, is_empty, after_frame, after_bpdu, first_of, after_take, handed, after_end, after_drop};

use crate::backlog::{Backlog, OCTETS, put_front};
use crate::parts::{
    HALF_FRAMES, HALF_OCTETS, SourceQueue, count, discount, empty_all, empty_parts, fits_in,
};
use ether_wire::Addr;
use std::alloc::{AllocError, Global};
use std::collections::VecDeque;
use std::marker::Model;

/// The octets of the longest datagram of a link: a frame of 9,018 octets after a VXLAN header.
pub const LONGEST: usize = 9026;

/// The most frames that may wait, however short they are: those of both halves.
const FRAMES: usize = 2 * HALF_FRAMES;

/// The most BPDUs that may wait. A port sends at most ten at once, and then one a second: if 16
/// wait, the link has made no progress for six seconds, and the newest BPDUs contain all of the
/// port's state.
const BPDUS: usize = 16;

/// The source of a waiting frame, its destination address, and its number of octets.
#[derive(Clone, Copy)]
struct Head {
    source: usize,
    to: Addr,
    size: usize,
}

/// The queue of a link: BPDUs and frames that wait to be sent. A line allocates its memory once,
/// when it is created, so that BPDUs and frames are dropped only for lack of room.
///
/// Frames come from several sources, the links of the edge. All sources share one half of the line,
/// and each has an equal part of the other half. So a source that passes on too many frames fills
/// the shared half and its own part, and leaves the other parts empty.
#[derive(Drop)]
pub struct Line {
    bpdus: VecDeque<[u8; 60]>,
    heads: VecDeque<Head>,
    /// The octets of the frames, one frame after the other.
    backlog: Backlog,
    /// What waits of each source.
    parts: Vec<SourceQueue>,
    dropped: u64,
    has_ended: bool,
}

impl Model for Line {
    ghost use Rattle.std.specs.Prelude.{ℕ, vec_len};
    ghost use Rattle.std.specs.Coded.{codes};
    ghost use Rattle.std.specs.FinMap.{code};
    ghost use Rattle.std.specs.VecDeque.{deque_capacity};
    ghost use Rattle.ev_links.specs.Line.{Waiting, waiting_of, cut, IsLine};

    ghost Value = { Waiting };

    ghost coded = { Prim.hlevel (codes, code) };

    ghost view = { λ l. waiting_of (vec_len l.parts) l.bpdus.items
        (cut l.heads.items l.backlog) l.dropped l.has_ended };

    ghost invariant = { λ l. IsLine l.heads.items l.backlog (deque_capacity l.heads)
        (deque_capacity l.bpdus) l.parts.items };
}

/// Returns `true` exactly if there is room for a frame of `size` octets after `frames` frames,
/// which have `waiting` octets together: in the shared half, or in the part of its source if
/// `is_own`.
fn has_room(frames: usize, waiting: usize, size: usize, is_own: bool) -> bool
    requires { waiting ≤ 524288 }
    ensures { result ≡ (nat_le size 9026
        && ((nat_lt frames 2048 && nat_le (waiting + size) 524288)
        && ((nat_lt frames 1024 && nat_le (waiting + size) 262144) || is_own))) }
{
    if size > LONGEST || frames >= FRAMES || waiting + size > OCTETS {
        return false;
    }
    is_own || (frames < HALF_FRAMES && waiting + size <= HALF_OCTETS)
}

/// Copies a BPDU's frame to the front of the buffer and returns its number of octets.
fn put_bpdu_front(buffer: &mut [u8], frame: &[u8; 60]) -> usize
    requires { 60 ≤ length buffer.old }
    ensures front { take result buffer.new ≡ frame.now }
    ensures fits { result ≤ length buffer.new }
{
    put_front(buffer, frame.as_slice())
}

impl Line {
    /// Creates a line on which nothing waits, with parts for the sources below `parts`.
    ///
    /// # Errors
    ///
    /// `AllocError` if memory is refused.
    pub fn new(alloc: Global, parts: usize) -> Result<Self, AllocError>
        ensures { IfOk result (λ line. line ≡ nothing_waits parts) }
    {
        Ok(Line {
            bpdus: VecDeque::with_capacity(alloc, BPDUS)?,
            heads: VecDeque::with_capacity(alloc, FRAMES)?,
            backlog: Backlog::new(alloc)?,
            parts: empty_parts(alloc, parts)?,
            dropped: 0,
            has_ended: false,
        })
    }

    /// Returns `true` exactly if nothing waits.
    #[tactic(auto, using(crate::proofs::Lines::cut_length))]
    pub fn is_empty(&self) -> bool
        ensures { result ≡ is_empty self.now }
    {
        self.bpdus.len() == 0 && self.heads.len() == 0
    }

    /// Appends a frame, or a datagram, of a source to the others. Drops and counts it exactly if it
    /// is longer than the longest datagram, or neither the shared half nor the part of the source
    /// has room for it.
    pub fn put(&mut self, source: usize, to: Addr, octets: &[u8])
        ensures { self.new ≡ after_frame (sourced source (packet to octets.now)) self.old }
    {
        let size = octets.len();
        let is_own = fits_in(self.parts.as_slice(), source, size);
        if !has_room(self.heads.len(), self.backlog.len(), size, is_own) {
            self.dropped = self.dropped.saturating_add(1);
            return;
        }
        self.heads.push_back_reserved(Head { source, to, size });
        self.backlog.append(octets);
        count(&mut self.parts, source, size);
    }

    /// Appends a BPDU's frame to the other BPDUs, before all frames. If 16 wait, the oldest is
    /// dropped for it and counted.
    pub fn put_bpdu(&mut self, frame: &[u8; 60])
        ensures { self.new ≡ after_bpdu frame.now self.old }
    {
        if self.bpdus.len() >= BPDUS {
            let _ = self.bpdus.pop_front();
            self.dropped = self.dropped.saturating_add(1);
        }
        self.bpdus.push_back_reserved(*frame);
    }

    /// Takes the first BPDU, or the first frame if there is no BPDU, and copies it to the front of
    /// the buffer. Returns its destination address and its number of octets, or `None` if nothing
    /// waits.
    pub fn take(&mut self, buffer: &mut [u8]) -> Option<(Addr, usize)>
        requires { 9026 ≤ length buffer.old }
        ensures first { handed result buffer.new ≡ first_of self.old }
        ensures rest { self.new ≡ after_take self.old }
        ensures fits { IfSome result (λ r. r.1 ≤ length buffer.new) }
    {
        if let Some(bpdu) = self.bpdus.pop_front() {
            return Some((Addr::default(), put_bpdu_front(buffer, &bpdu)));
        }
        let head = self.heads.pop_front()?;
        discount(&mut self.parts, head.source, head.size);
        Some((head.to, self.backlog.take(head.size, buffer)))
    }

    /// Ends the line: nothing more comes.
    pub fn end(&mut self)
        ensures { self.new ≡ after_end self.old }
    {
        self.has_ended = true;
    }

    /// Drops all that waits, and counts each BPDU and frame.
    pub fn drop_rest(&mut self)
        ensures { self.new ≡ after_drop self.old }
    {
        let bpdus = self.bpdus.len() as u64;
        let frames = self.heads.len() as u64;
        self.dropped = self.dropped.saturating_add(bpdus).saturating_add(frames);
        self.bpdus.clear();
        self.heads.clear();
        self.backlog.clear();
        empty_all(&mut self.parts);
    }

    /// Returns `true` if the line has ended.
    pub fn has_ended(&self) -> bool
        ensures { result ≡ self.now.has_ended }
    {
        self.has_ended
    }

    /// Returns the number of frames and BPDUs that were dropped.
    pub fn dropped(&self) -> u64
        ensures { result ≡ self.now.dropped }
    {
        self.dropped
    }
}
