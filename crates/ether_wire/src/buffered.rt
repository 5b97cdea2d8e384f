//! A writer that passes its octets to another writer in large pieces.
#![tactic(auto, using(crate::proofs::Appending::with_text_twice, crate::proofs::Appending::with_text_none, crate::proofs::Appending::part_behind))]

ghost use Rattle.std.specs.Prelude.{◌≡◌, []};
ghost use Rattle.ether_wire.specs.Ends.{End, Puts};

use crate::ends::{Device, Out};
use crate::piece::Piece;

/// The maximum number of octets in the buffer of a buffered writer.
const HELD: usize = 16_384;

/// A writer that buffers up to 16,384 octets for another writer, so that many small calls make few
/// calls of the other writer. It takes no memory.
///
/// The octets of its end are those of the other writer, followed by those in the buffer: `finish`
/// passes the latter on. Its failures are those of the other writer. If a call fails, the octets in
/// the buffer are lost, so that nothing is written twice.
pub struct Buffered<W> {
    inner: W,
    held: Piece<HELD>,
}

impl<W: Out> Buffered<W> {
    ghost use Rattle.ether_wire.specs.Buffered.{buffered_end};

    /// Returns a writer with an empty buffer.
    pub fn new(inner: W) -> Self
        ensures { buffered_end W.end result ≡ W.end inner }
    {
        Buffered {
            inner,
            held: Piece::new(),
        }
    }

    /// Passes the octets in the buffer on, in one call if there are any, and returns the other
    /// writer.
    pub fn finish(mut self) -> (W, Result<(), Device>)
        ensures { Puts (buffered_end W.end self) (W.end result.0) [] result.1 }
    {
        let result = self.pass_on();
        let Buffered { inner, held: _ } = self;
        (inner, result)
    }

    /// Returns the other writer, and discards the octets in the buffer.
    pub fn abandon(self) -> W
        ensures { (W.end result).failures ≡ (buffered_end W.end self).failures }
    {
        let Buffered { inner, held: _ } = self;
        inner
    }

    /// Passes the octets in the buffer on. The buffer is empty afterwards, even if that failed.
    fn pass_on(&mut self) -> Result<(), Device>
        ensures passes { Puts (W.end self.old.inner)
            (W.end self.new.inner) self.old.held result }
        ensures empty { self.new.held ≡ [] }
    {
        if self.held.is_empty() {
            return Ok(());
        }
        let result = self.inner.put(self.held.octets());
        self.held.clear();
        result
    }

    /// Passes the octets in the buffer on. Then it buffers the new octets, or passes them on too if
    /// they are more than the buffer can hold.
    // Separate from `put`, so that calls that only buffer a few more octets are inlined.
    #[inline(never)]
    fn put_anew(&mut self, octets: &[u8]) -> Result<(), Device>
        ensures { Puts (buffered_end W.end self.old) (buffered_end W.end self.new)
            octets.now result }
    {
        self.pass_on()?;
        if self.held.try_put(octets) {
            return Ok(());
        }
        self.inner.put(octets)
    }
}

impl<W: Out> Out for Buffered<W> {
    ghost use Rattle.ether_wire.specs.Buffered.{held_of, passed_end, buffered_end};

    ghost end = { buffered_end W.end };

    fn failures(&self) -> u64 {
        self.inner.failures()
    }

    #[inline(always)]
    fn put(&mut self, octets: &[u8]) -> Result<(), Device> {
        if self.held.try_put(octets) {
            return Ok(());
        }
        self.put_anew(octets)
    }

    /// Passes the octets in the buffer on. The buffer is empty afterwards, even if that failed.
    fn flush(&mut self) -> Result<(), Device>
        ensures puts { Puts (buffered_end W.end self.old) (buffered_end W.end self.new) [] result }
        ensures passes { Puts (passed_end W.end self.old) (passed_end W.end self.new)
            (held_of self.old) result }
        ensures empty { held_of self.new ≡ [] }
    {
        Self::pass_on(self)
    }
}
