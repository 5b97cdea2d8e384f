//! Ends over std's readers and writers, which count their errors.
#![tactic(auto, using(crate::proofs::Failing::allows_new, crate::proofs::Failing::open_new, crate::proofs::Failing::allows_inner, crate::proofs::Failing::gets_beside, crate::proofs::Failing::gets_own, crate::proofs::Failing::open_inner, crate::proofs::Failing::puts_beside, crate::proofs::Failing::one_more, crate::proofs::Failing::puts_own))]

ghost use Rattle.std.specs.Prelude.{◌≡◌, None, OnOk};
ghost use Rattle.std.specs.Io.KnownBytes.{ReadConsumes, Appends};
ghost use Rattle.ether_wire.specs.Ends.{Allows, Puts, Gets, end_of, source_of};

use crate::ends::{Device, In, Out};
use std::io::{Read, Write};

/// A reader over one of std's. Each error of the inner one is a failed call.
///
/// A reader of std may be a file or a terminal, so the octets of this end are unknown. If the
/// octets of the inner reader are known, the contract of `read` states that it returned the next
/// ones.
#[derive(Drop)]
pub struct Reader<R> {
    inner: R,
    failures: u64,
    reads: u64,
}

impl<R: Read> Reader<R> {
    ghost use Rattle.ether_wire.specs.Adapters.{inner_reader, reader_end};

    /// Returns a reader that hasn't been read yet.
    pub fn new(inner: R) -> Self
        ensures inner { inner_reader result ≡ inner }
        ensures end { reader_end result ≡ source_of None 0 0 }
    {
        Reader {
            inner,
            failures: 0,
            reads: 0,
        }
    }
}

impl<R: Read> In for Reader<R> {
    ghost use Rattle.ether_wire.specs.Adapters.{reader_end};

    ghost end = { reader_end };

    fn failures(&self) -> u64 {
        self.failures
    }

    fn read(&mut self, buffer: &mut [u8]) -> Result<usize, Device>
        requires { Allows 1 (reader_end self.old) }
        ensures gets { Gets (reader_end self.old) (reader_end self.new) buffer.new result }
        ensures consumes { ReadConsumes (R.remaining self.old.inner)
            (R.remaining self.new.inner) result buffer.new }
    {
        self.reads += 1;
        match self.inner.read(buffer) {
            Ok(n) => Ok(n),
            Err(_) => {
                self.failures += 1;
                Err(Device)
            }
        }
    }
}

/// A writer over one of std's. Each error of the inner one is a failed call.
///
/// The octets of this end are unknown. If the octets of the inner writer are known, the contract of
/// `put` states that all of them went out.
#[derive(Drop)]
pub struct Writer<W> {
    inner: W,
    failures: u64,
}

impl<W: Write> Writer<W> {
    ghost use Rattle.ether_wire.specs.Adapters.{inner_writer, writer_end};

    /// Returns a writer that hasn't failed.
    pub fn new(inner: W) -> Self
        ensures inner { inner_writer result ≡ inner }
        ensures end { writer_end result ≡ end_of None 0 }
    {
        Writer { inner, failures: 0 }
    }
}

impl<W: Write> Out for Writer<W> {
    ghost use Rattle.ether_wire.specs.Adapters.{writer_end};

    ghost end = { writer_end };

    fn failures(&self) -> u64 {
        self.failures
    }

    fn put(&mut self, octets: &[u8]) -> Result<(), Device>
        ensures puts { Puts (writer_end self.old) (writer_end self.new) octets.now result }
        ensures passes { OnOk result
            (Appends (W.contents self.old.inner) (W.contents self.new.inner) octets.now) }
    {
        match self.inner.write_all(octets) {
            Ok(()) => Ok(()),
            Err(_) => {
                self.failures = self.failures.saturating_add(1);
                Err(Device)
            }
        }
    }
}
