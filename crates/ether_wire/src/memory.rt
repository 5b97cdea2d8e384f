//! Ends over memory, with known octets.
#![tactic(auto, using(crate::proofs::Appending::with_text_twice, crate::proofs::Appending::with_text_none, crate::proofs::Appending::part_behind))]

ghost use Rattle.std.specs.Prelude.{◌≡◌, ◌+◌, ◌≤◌, ◌↔◌, [], length, Some, IsOk, OnErr};
ghost use Rattle.ether_wire.specs.Ends.{Puts, end_of, source_of};

use crate::ends::{Device, In, Out};
use arrayvec::ArrayVec;

/// A reader of a slice. It never fails.
#[derive(Drop)]
pub struct Octets<'a> {
    left: &'a [u8],
    reads: u64,
}

impl<'a> Octets<'a> {
    ghost use Rattle.ether_wire.specs.Memory.{octets_end};

    /// Returns a reader with all of the slice left.
    pub fn new(octets: &'a [u8]) -> Self
        ensures { octets_end result ≡ source_of (Some octets.now) 0 0 }
    {
        Octets {
            left: octets,
            reads: 0,
        }
    }
}

impl In for Octets<'_> {
    ghost use Rattle.ether_wire.specs.Memory.{octets_end};

    ghost end = { octets_end };

    fn failures(&self) -> u64 {
        0
    }

    fn read(&mut self, buffer: &mut [u8]) -> Result<usize, Device> {
        let n = self.left.len().min(buffer.len());
        let (front, rest) = self.left.split_at(n);
        buffer[..n].copy_from_slice(front);
        self.left = rest;
        self.reads += 1;
        Ok(n)
    }
}

/// A writer with room for N octets. It fails if the octets of a put do not fit, and then its octets
/// stay.
#[derive(Drop)]
pub struct Page<const N: usize> {
    octets: ArrayVec<u8, N>,
    failures: u64,
}

impl<const N: usize> Page<N> {
    ghost use Rattle.ether_wire.specs.Memory.{page_octets, page_end};

    /// Returns an empty page.
    pub fn new() -> Self
        ensures { page_end result ≡ end_of (Some []) 0 }
    {
        Page {
            octets: ArrayVec::new(),
            failures: 0,
        }
    }

    /// Returns the octets that were written.
    pub fn octets(&self) -> &[u8]
        ensures { result.now ≡ page_octets self.now }
    {
        self.octets.as_slice()
    }
}

impl<const N: usize> Out for Page<N> {
    ghost use Rattle.ether_wire.specs.Memory.{page_octets, page_end};

    ghost end = { page_end };

    fn failures(&self) -> u64 {
        self.failures
    }

    fn put(&mut self, octets: &[u8]) -> Result<(), Device>
        ensures puts { Puts (page_end self.old) (page_end self.new) octets.now result }
        ensures fits { IsOk result ↔ (length (page_octets self.old) + length octets.now ≤ N) }
        ensures err { OnErr result (page_octets self.new ≡ page_octets self.old) }
    {
        match self.octets.try_extend_from_slice(octets) {
            Ok(()) => Ok(()),
            Err(_) => {
                self.failures = self.failures.saturating_add(1);
                Err(Device)
            }
        }
    }
}
