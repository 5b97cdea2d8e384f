//! Links of which one call fails, so that the effects of a device's failure can be observed.
ghost use Rattle.std.specs.Prelude.{◌≡◌, ◌≢◌, ◌+◌, ◌^◌, ◌<◌, ◌≤◌, true, false, is_err, length, if◌then◌else◌, IfOk, IfSome};
ghost use Rattle.ev_links.specs.FailingLink.{inner_link, calls_of, fails_at, counted};

use crate::links::{LinkIn, LinkOut, PromptOut};
use ether_wire::{Addr, Device};

/// A link that wraps another one. Its call of one number, counted from 1, fails and does not reach
/// the wrapped link; all other calls go to the wrapped link. With the number 0 no call fails in
/// this way.
#[derive(Clone, Drop)]
pub struct FailingLink<K> {
    inner: K,
    at: u64,
    calls: u64,
    failures: u64,
}

impl<K> FailingLink<K> {
    /// Creates a link that has not been called, and whose call of this number will fail.
    pub fn new(inner: K, at: u64) -> Self
        ensures inner { inner_link result ≡ inner }
        ensures calls { calls_of result ≡ 0 }
        ensures at { fails_at result ≡ at }
        ensures failures { result.failures ≡ 0 }
    {
        FailingLink {
            inner,
            at,
            calls: 0,
            failures: 0,
        }
    }

    /// Returns the wrapped link.
    pub fn inner(&self) -> &K
        ensures { result.now ≡ inner_link self.now }
    {
        &self.inner
    }

    /// Returns the number of calls so far; calls of `failures` don't count.
    pub fn calls(&self) -> u64
        ensures { result ≡ calls_of self.now }
    {
        self.calls
    }
}

/// Counts a call. Returns `true` exactly if it is the one with this number.
fn is_due(calls: &mut u64, at: u64) -> bool
    ensures yes { calls.old + 1 ≡ at → result ≡ true }
    ensures no { calls.old + 1 ≢ at → result ≡ false }
    ensures counted { calls.new ≡ counted calls.old }
{
    let is_due = at != 0 && *calls == at - 1;
    *calls = calls.saturating_add(1);
    is_due
}

impl<K: LinkIn> LinkIn for FailingLink<K> {
    ghost use Rattle.std.specs.Prelude.{None};
    ghost use Rattle.ev_links.specs.FailingLink.{failing, inner_link, calls_of, fails_at, counted};
    ghost use Rattle.ev_links.specs.Coming.{behind};
    ghost use Rattle.ev_links.specs.Links.{brought};

    ghost failed = { failing K.failed };

    ghost came = { λ f. None };

    fn failures(&self) -> u64 {
        self.inner.failures().saturating_add(self.failures)
    }

    fn recv(&mut self, buffer: &mut [u8]) -> Result<Option<(Addr, usize)>, Device>
        requires { failing K.failed self.old + 1 < 2 ^ 64 }
        ensures fits { IfOk result (λ r. IfSome r (λ p. p.1 ≤ length buffer.new)) }
        ensures failed { failing K.failed self.new
            ≡ failing K.failed self.old + (if is_err result then 1 else 0) }
        ensures due { calls_of self.old + 1 ≡ fails_at self.old
            → (is_err result ≡ true) × (inner_link self.new ≡ inner_link self.old) }
        ensures other { calls_of self.old + 1 ≢ fails_at self.old
            → K.failed (inner_link self.new)
            ≡ K.failed (inner_link self.old) + (if is_err result then 1 else 0) }
        ensures passed { calls_of self.old + 1 ≢ fails_at self.old
            → K.came (inner_link self.new)
            ≡ behind (K.came (inner_link self.old)) (brought result buffer.new) }
        ensures counted { (calls_of self.new ≡ counted (calls_of self.old))
            × (fails_at self.new ≡ fails_at self.old) }
    {
        if is_due(&mut self.calls, self.at) {
            self.failures += 1;
            return Err(Device);
        }
        self.inner.recv(buffer)
    }
}

impl<K: LinkOut> LinkOut for FailingLink<K> {
    ghost use Rattle.ev_links.specs.FailingLink.{failing, inner_link, calls_of, fails_at, counted};
    ghost use Rattle.ev_links.specs.Coming.{behind};
    ghost use Rattle.ev_links.specs.Links.{sent_by};

    ghost failed = { failing K.failed };

    ghost sent = { λ f. K.sent (inner_link f) };

    fn failures(&self) -> u64 {
        self.inner.failures().saturating_add(self.failures)
    }

    #[tactic(auto, using(crate::proofs::Behind::behind_none))]
    fn send(&mut self, to: Addr, octets: &[u8]) -> Result<(), Device>
        requires { failing K.failed self.old + 1 < 2 ^ 64 }
        ensures sent { K.sent (inner_link self.new)
            ≡ behind (K.sent (inner_link self.old)) (sent_by to octets.now result) }
        ensures failed { failing K.failed self.new
            ≡ failing K.failed self.old + (if is_err result then 1 else 0) }
        ensures due { calls_of self.old + 1 ≡ fails_at self.old
            → (is_err result ≡ true) × (inner_link self.new ≡ inner_link self.old) }
        ensures other { calls_of self.old + 1 ≢ fails_at self.old
            → K.failed (inner_link self.new)
            ≡ K.failed (inner_link self.old) + (if is_err result then 1 else 0) }
        ensures counted { (calls_of self.new ≡ counted (calls_of self.old))
            × (fails_at self.new ≡ fails_at self.old) }
    {
        if is_due(&mut self.calls, self.at) {
            self.failures += 1;
            return Err(Device);
        }
        self.inner.send(to, octets)
    }
}

/// A link of which a call will fail sends nothing without waiting, so that each datagram is a call
/// of `send` and counts.
impl<K: PromptOut> PromptOut for FailingLink<K> {
    ghost use Rattle.std.specs.Prelude.{None};

    ghost tried = { λ f. None };

    fn send_now(&mut self, to: Addr, octets: &[u8]) -> bool {
        self.at == 0 && self.inner.send_now(to, octets)
    }
}
