//! Links that count the datagrams that go over them, and show the numbers while they are used.
ghost use Rattle.std.specs.Prelude.{◌≡◌, ◌+◌, ◌^◌, ◌<◌, ◌≤◌, is_err, length, if◌then◌else◌, IfOk, IfSome};
ghost use Rattle.ev_links.specs.Flow.{no_flow, counted, after_received, after_sent};

use crate::flow::{Flow, FlowCell};
use crate::links::{LinkIn, LinkOut, PromptOut};
use ether_wire::{Addr, Device};

/// A link that wraps another one and counts its datagrams. It shows the count and the number of
/// failed calls in a cell, if there is one. No other link shows its numbers there.
#[derive(Clone, Drop)]
pub struct CountedLink<'x, K> {
    inner: K,
    flow: Flow,
    cell: Option<&'x FlowCell>,
}

impl<'x, K> CountedLink<'x, K> {
    /// Creates a link over which nothing went yet.
    pub fn new(inner: K, cell: Option<&'x FlowCell>) -> Self
        ensures inner { result.inner ≡ inner }
        ensures flow { result.flow ≡ no_flow }
    {
        CountedLink {
            inner,
            flow: Flow::none(),
            cell,
        }
    }

    /// Counts a datagram of `size` octets, and shows the count.
    fn count(&mut self, size: usize)
        ensures flow { self.new.flow ≡ counted size self.old.flow }
        ensures inner { self.new.inner ≡ self.old.inner }
    {
        self.flow = self.flow.with(size);
        if let Some(cell) = self.cell {
            cell.show(self.flow);
        }
    }

    /// Shows a number of failed calls.
    fn show_failures(&self, failures: u64) {
        if let Some(cell) = self.cell {
            cell.show_failures(failures);
        }
    }
}

impl<K: LinkIn> LinkIn for CountedLink<'_, K> {
    ghost use Rattle.ev_links.specs.Flow.{after_received};
    ghost use Rattle.ev_links.specs.Coming.{behind};
    ghost use Rattle.ev_links.specs.Links.{brought};

    ghost failed = { λ l. K.failed l.inner };

    ghost came = { λ l. K.came l.inner };

    fn failures(&self) -> u64 {
        self.inner.failures()
    }

    fn recv(&mut self, buffer: &mut [u8]) -> Result<Option<(Addr, usize)>, Device>
        requires { K.failed self.old.inner + 1 < 2 ^ 64 }
        ensures fits { IfOk result (λ r. IfSome r (λ p. p.1 ≤ length buffer.new)) }
        ensures came { K.came self.new.inner
            ≡ behind (K.came self.old.inner) (brought result buffer.new) }
        ensures failed { K.failed self.new.inner
            ≡ K.failed self.old.inner + (if is_err result then 1 else 0) }
        ensures counted { self.new.flow ≡ after_received result self.old.flow }
    {
        let got = self.inner.recv(buffer);
        if let Ok(Some((_, size))) = &got {
            self.count(*size);
        }
        if got.is_err() {
            self.show_failures(self.inner.failures());
        }
        got
    }
}

impl<K: LinkOut> LinkOut for CountedLink<'_, K> {
    ghost use Rattle.ev_links.specs.Flow.{after_sent};
    ghost use Rattle.ev_links.specs.Coming.{behind};
    ghost use Rattle.ev_links.specs.Links.{sent_by};

    ghost failed = { λ l. K.failed l.inner };

    ghost sent = { λ l. K.sent l.inner };

    fn failures(&self) -> u64 {
        self.inner.failures()
    }

    fn send(&mut self, to: Addr, octets: &[u8]) -> Result<(), Device>
        requires { K.failed self.old.inner + 1 < 2 ^ 64 }
        ensures sent { K.sent self.new.inner
            ≡ behind (K.sent self.old.inner) (sent_by to octets.now result) }
        ensures failed { K.failed self.new.inner
            ≡ K.failed self.old.inner + (if is_err result then 1 else 0) }
        ensures counted { self.new.flow
            ≡ after_sent (length octets.now) result self.old.flow }
    {
        let sent = self.inner.send(to, octets);
        if sent.is_ok() {
            self.count(octets.len());
        } else {
            self.show_failures(self.inner.failures());
        }
        sent
    }
}

impl<K: PromptOut> PromptOut for CountedLink<'_, K> {
    ghost use Rattle.std.specs.Prelude.{◌∷◌, [], if◌then◌else◌};
    ghost use Rattle.ev_links.specs.Flow.{counted};
    ghost use Rattle.ev_links.specs.Coming.{behind};
    ghost use Rattle.ev_links.specs.Links.{packet, a_try};

    ghost tried = { λ l. K.tried l.inner };

    fn send_now(&mut self, to: Addr, octets: &[u8]) -> bool
        ensures tried { K.tried self.new.inner
            ≡ behind (K.tried self.old.inner) (a_try (packet to octets.now) result ∷ []) }
        ensures counted { self.new.flow
            ≡ (if result then counted (length octets.now) self.old.flow else self.old.flow) }
    {
        let is_sent = self.inner.send_now(to, octets);
        if is_sent {
            self.count(octets.len());
        }
        is_sent
    }
}
