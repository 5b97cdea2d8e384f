//! An end with one call that fails, to test how callers handle a failure of a device.
#![tactic(auto, using(crate::proofs::Appending::with_text_twice, crate::proofs::Appending::with_text_none, crate::proofs::Appending::part_behind))]

ghost use Rattle.std.specs.Prelude.{◌≡◌, ◌≢◌, ℕ, ◌+◌, true, false, is_err, []};
ghost use Rattle.ether_wire.specs.Ends.{IsOpen, Allows, Puts, Gets};

use crate::ends::{Device, In, Out};
use crate::flushing::Flushing;

/// An end over another end. The call with one number, counted from 1, fails without a call of the
/// other end; all other calls go to the other end. With the number 0 none of its calls fails in
/// this way.
#[derive(Drop)]
pub struct FailAt<E> {
    inner: E,
    at: u64,
    calls: u64,
    failures: u64,
}

impl<R: In> FailAt<R> {
    ghost use Rattle.ether_wire.specs.FailAt.{inner_end, calls_of, fails_at, failing_reader};

    /// Returns a reader that hasn't been called yet, and whose read with this number will fail.
    pub fn reader(inner: R, at: u64) -> Self
        ensures inner { inner_end result ≡ inner }
        ensures calls { calls_of result ≡ 0 }
        ensures at { fails_at result ≡ at }
        ensures allows { (more : ℕ) → Allows more (R.end inner)
            → Allows more (failing_reader R.end result) }
    {
        FailAt {
            inner,
            at,
            calls: 0,
            failures: 0,
        }
    }
}

impl<W: Out> FailAt<W> {
    ghost use Rattle.ether_wire.specs.FailAt.{inner_end, calls_of, fails_at, failing_writer};

    /// Returns a writer that hasn't been called yet, and whose call with this number will fail.
    pub fn writer(inner: W, at: u64) -> Self
        ensures inner { inner_end result ≡ inner }
        ensures calls { calls_of result ≡ 0 }
        ensures at { fails_at result ≡ at }
        ensures open { IsOpen (W.end inner) → IsOpen (failing_writer W.end result) }
    {
        FailAt {
            inner,
            at,
            calls: 0,
            failures: 0,
        }
    }
}

impl<E> FailAt<E> {
    ghost use Rattle.ether_wire.specs.FailAt.{inner_end, calls_of};

    /// Returns the other end.
    pub fn inner(&self) -> &E
        ensures { result.now ≡ inner_end self.now }
    {
        &self.inner
    }

    /// Returns the number of calls so far; calls of `failures` don't count.
    pub fn calls(&self) -> u64
        ensures { result ≡ calls_of self.now }
    {
        self.calls
    }
}

/// Counts a call, and returns `true` if it is the one that fails.
fn is_due(calls: &mut u64, at: u64) -> bool
    ensures yes { calls.old + 1 ≡ at → result ≡ true }
    ensures no { calls.old + 1 ≢ at → result ≡ false }
{
    let is_due = at != 0 && *calls == at - 1;
    *calls = calls.saturating_add(1);
    is_due
}

impl<R: In> In for FailAt<R> {
    ghost use Rattle.ether_wire.specs.FailAt.{failing_reader, inner_end, calls_of, fails_at};

    ghost end = { failing_reader R.end };

    fn failures(&self) -> u64 {
        self.inner.failures().saturating_add(self.failures)
    }

    fn read(&mut self, buffer: &mut [u8]) -> Result<usize, Device>
        requires { Allows 1 (failing_reader R.end self.old) }
        ensures gets { Gets (failing_reader R.end self.old)
            (failing_reader R.end self.new) buffer.new result }
        ensures due { calls_of self.old + 1 ≡ fails_at self.old → is_err result ≡ true }
        ensures other { calls_of self.old + 1 ≢ fails_at self.old
            → Gets (R.end (inner_end self.old)) (R.end (inner_end self.new)) buffer.new result }
    {
        if is_due(&mut self.calls, self.at) {
            self.failures += 1;
            return Err(Device);
        }
        self.inner.read(buffer)
    }
}

impl<W: Out> Out for FailAt<W> {
    ghost use Rattle.ether_wire.specs.FailAt.{failing_writer, inner_end, calls_of, fails_at};

    ghost end = { failing_writer W.end };

    fn failures(&self) -> u64 {
        self.inner.failures().saturating_add(self.failures)
    }

    fn put(&mut self, octets: &[u8]) -> Result<(), Device>
        ensures puts { Puts (failing_writer W.end self.old)
            (failing_writer W.end self.new) octets.now result }
        ensures due { calls_of self.old + 1 ≡ fails_at self.old → is_err result ≡ true }
        ensures other { calls_of self.old + 1 ≢ fails_at self.old
            → Puts (W.end (inner_end self.old)) (W.end (inner_end self.new)) octets.now result }
    {
        if is_due(&mut self.calls, self.at) {
            self.failures = self.failures.saturating_add(1);
            return Err(Device);
        }
        self.inner.put(octets)
    }

    fn flush(&mut self) -> Result<(), Device>
        ensures puts { Puts (failing_writer W.end self.old)
            (failing_writer W.end self.new) [] result }
        ensures due { calls_of self.old + 1 ≡ fails_at self.old → is_err result ≡ true }
        ensures other { calls_of self.old + 1 ≢ fails_at self.old
            → Puts (W.end (inner_end self.old)) (W.end (inner_end self.new)) [] result }
    {
        if is_due(&mut self.calls, self.at) {
            self.failures = self.failures.saturating_add(1);
            return Err(Device);
        }
        self.inner.flush()
    }
}

/// The octets that it holds back are those of the other end.
impl<W: Flushing> Flushing for FailAt<W> {
    ghost use Rattle.ether_wire.specs.FailAt.{inner_end};

    ghost held = { λ end. W.held (inner_end end) };

    fn flush_held(&mut self) -> Result<(), Device> {
        if is_due(&mut self.calls, self.at) {
            self.failures = self.failures.saturating_add(1);
            return Err(Device);
        }
        self.inner.flush_held()
    }
}
