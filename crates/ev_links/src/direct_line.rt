//! A link with its line: a frame is sent at once while nothing waits, and waits on the line
//! otherwise.
ghost use Rattle.std.specs.Prelude.{◌≡◌, ◌≤◌, false, length, IfOk, IfSome};
ghost use Rattle.ev_links.specs.Links.{packet};
ghost use Rattle.ev_links.specs.Line.{sourced, nothing_waits, first_of, handed};
ghost use Rattle.ev_links.specs.DirectLine.{direct, direct_of, Passes, with_bpdu_put, after_turn, after_its_end, after_its_drop};

use crate::line::Line;
use crate::links::PromptOut;
use ether_wire::Addr;
use std::alloc::{AllocError, Global};

/// A link with its line. Workers that enter events pass frames on to it. The link's own worker
/// takes the frames that wait on the line, and waits for the link as long as a send needs.
///
/// So a frame needs no second thread unless the link is busy. Frames leave in the order in which
/// they were passed on: while one waits, or the link's worker sends one, the next waits, too.
#[derive(Drop)]
pub struct DirectLine<K> {
    line: Line,
    link: K,
    /// `true` while the link's worker sends the frame or BPDU that it took last.
    is_sending: bool,
}

impl<K: PromptOut> DirectLine<K> {
    /// Creates a line to this link on which nothing waits, with parts for the sources below
    /// `parts`. The link's worker sends nothing yet.
    ///
    /// # Errors
    ///
    /// `AllocError` if memory is refused.
    pub fn new(alloc: Global, link: K, parts: usize) -> Result<Self, AllocError>
        ensures { IfOk result
            (λ line. direct_of K.tried line
            ≡ direct (nothing_waits parts) false (K.tried link)) }
    {
        Ok(DirectLine {
            line: Line::new(alloc, parts)?,
            link,
            is_sending: false,
        })
    }

    /// Sends a frame, or a datagram, of a source at once if nothing waits, the link's worker sends
    /// nothing, and the link takes it without waiting. Otherwise appends it to the line, which
    /// drops and counts it if neither the shared half nor the part of the source has room. Returns
    /// `true` exactly if it was sent.
    pub fn pass(&mut self, source: usize, to: Addr, octets: &[u8]) -> bool
        ensures { Passes result (sourced source (packet to octets.now))
            (direct_of K.tried self.old) (direct_of K.tried self.new) }
    {
        if !self.is_sending && self.line.is_empty() && self.link.send_now(to, octets) {
            return true;
        }
        self.line.put(source, to, octets);
        false
    }

    /// Appends a BPDU's frame to the other BPDUs, before all frames (`Line::put_bpdu`).
    pub fn put_bpdu(&mut self, frame: &[u8; 60])
        ensures { direct_of K.tried self.new
            ≡ with_bpdu_put frame.now (direct_of K.tried self.old) }
    {
        self.line.put_bpdu(frame);
    }

    /// Takes the first BPDU or frame for the link's worker, as `Line::take` does. The worker calls
    /// this after it has sent the one before. From then on it sends the one that it got.
    pub fn take(&mut self, buffer: &mut [u8]) -> Option<(Addr, usize)>
        requires { 9026 ≤ length buffer.old }
        ensures first { handed result buffer.new ≡ first_of self.old.line }
        ensures rest { direct_of K.tried self.new ≡ after_turn (direct_of K.tried self.old) }
        ensures fits { IfSome result (λ r. r.1 ≤ length buffer.new) }
    {
        let first = self.line.take(buffer);
        self.is_sending = first.is_some();
        first
    }

    /// Ends the line: nothing more comes.
    pub fn end(&mut self)
        ensures { direct_of K.tried self.new ≡ after_its_end (direct_of K.tried self.old) }
    {
        self.line.end();
    }

    /// Drops all that waits, and counts each BPDU and frame.
    pub fn drop_rest(&mut self)
        ensures { direct_of K.tried self.new ≡ after_its_drop (direct_of K.tried self.old) }
    {
        self.line.drop_rest();
    }

    /// Returns `true` if the line has ended.
    pub fn has_ended(&self) -> bool
        ensures { result ≡ self.now.line.has_ended }
    {
        self.line.has_ended()
    }

    /// Returns the number of frames and BPDUs that were dropped.
    pub fn dropped(&self) -> u64
        ensures { result ≡ self.now.line.dropped }
    {
        self.line.dropped()
    }
}
