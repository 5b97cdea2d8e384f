//! Writers that may hold octets back, and a call that passes them on.
#![tactic(auto, using(crate::proofs::Appending::with_text_twice, crate::proofs::Appending::with_text_none, crate::proofs::Appending::part_behind))]

ghost use Rattle.std.specs.Prelude.{◌≡◌, ℕ, List, [], OnOk};
ghost use Rattle.ether_wire.specs.Ends.{End, Puts};

use crate::buffered::Buffered;
use crate::ends::{Device, Out};
use crate::memory::Page;

/// A writer that may have a buffer. Before a caller waits for input, it flushes the buffer, so that
/// the other side has each octet that was written.
pub trait Flushing: Out {
    /// The octets in the buffer.
    ghost held: { Self → List ℕ };

    /// Passes on the octets in the buffer. After `Ok` the buffer is empty.
    fn flush_held(&mut self) -> Result<(), Device>
        ensures puts { Puts (Self.end self.old) (Self.end self.new) [] result }
        ensures none_held { OnOk result (held self.new ≡ []) };
}

impl<W: Out> Flushing for Buffered<W> {
    ghost use Rattle.ether_wire.specs.Buffered.{held_of};

    ghost held = { held_of };

    fn flush_held(&mut self) -> Result<(), Device> {
        self.flush()
    }
}

/// A page has no buffer.
impl<const N: usize> Flushing for Page<N> {
    ghost held = { λ page. [] };

    fn flush_held(&mut self) -> Result<(), Device> {
        self.flush()
    }
}
