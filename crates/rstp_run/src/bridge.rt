//! A bridge of the spanning tree.

ghost use Rattle.std.specs.Prelude.{ℕ, ◌≡◌, ◌≤◌, ◌↔◌, All, length, slice_get, IsTrue, true, false};
ghost use Rattle.bpdu_wire.specs.Id.{port_number};
ghost use Rattle.ether_wire.specs.Ports.{has_port, place_of_port};
ghost use Rattle.rstp_run.specs.Events.{
  firings_at,
  Happens,
  IsAt,
  IsPort,
  Learns,
  Passes,
  sent_from,
  start,
};
ghost use Rattle.rstp_run.specs.Laws.{AreNumbered, AreOrderly, IsInTree};
ghost use Rattle.rstp_run.specs.Rules.{Tree};
ghost use Rattle.rstp_run.specs.Runs.{IsSettled};

use crate::engine::Engine;
use crate::event::{Effect, Event, Outcome};
use arrayvec::ArrayVec;
use bpdu_wire::Bpdu;
use rstp_state::{PortSettings, PortState, Settings};
use std::marker::Model;

/// The configuration of a bridge and its ports.
#[derive(Clone, Copy)]
pub struct BridgeConfig<'a> {
    pub settings: Settings,
    /// The ports, numbered from 1.
    pub ports: &'a [PortSettings],
}

/// A bridge of 1 to 64 ports, numbered from 1, with the rules of the rapid spanning tree. Events
/// come one after the other. Each event fires rules until none is enabled, or until it reaches its
/// limit of firings. In the latter case the bridge isn't settled, no port passes frames or learns,
/// and the next event continues.
#[derive(Drop)]
pub struct Bridge {
    engine: Engine,
    settled: bool,
}

impl Model for Bridge {
    ghost Value = { Tree };

    ghost view = { λ b. b.engine };

    ghost invariant = { λ b. (IsTrue b.settled ↔ IsSettled b.engine) × AreOrderly b.engine
        × AreNumbered b.engine × (1 ≤ length b.engine.ports) };
}

/// Returns `true` if the port passes frames, given whether the bridge is settled.
fn is_passing(engine: &Engine, settled: bool, p: u8) -> bool
    requires there { IsPort p (length engine.now.ports) }
    requires known { IsTrue settled ↔ IsSettled engine.now }
    ensures { IsTrue result ↔ Passes engine.now p }
{
    let port = engine.port(p);
    settled && port.enabled && port.forwarding
}

impl Bridge {
    /// Returns a bridge before its first event: no port is up and, with a Hello time of at least 1,
    /// no rule is enabled. Takes no memory.
    pub fn new(config: BridgeConfig) -> Self
        requires some { 1 ≤ length config.ports.now }
        requires few { length config.ports.now ≤ 64 }
        ensures value { result ≡ start config.entry.settings config.entry.ports.now }
        ensures settled { 1 ≤ config.entry.settings.hello → IsSettled result }
    {
        let engine = Engine::new(config.settings, config.ports);
        let settled = engine.is_settled();
        Bridge { engine, settled }
    }

    /// Returns the number of ports.
    pub fn len(&self) -> usize
        ensures value { result ≡ length self.now.ports }
        ensures some { 1 ≤ result }
        ensures few { result ≤ 64 }
    {
        self.engine.len()
    }

    /// Processes the event with at most `limit` firings. Replaces the content of `out` by the
    /// messages to send.
    fn go_within(
        &mut self,
        event: Event,
        limit: usize,
        out: &mut ArrayVec<(u8, Bpdu), 64>,
    ) -> Effect
        requires { IsAt event (length self.old.ports) }
        ensures happens { Happens event limit self.old self.new result.settled result.flush }
        ensures settled { IsTrue result.settled ↔ IsSettled self.new }
        ensures out { out.new.items ≡ sent_from 1 self.new.ports }
        ensures ports { length self.new.ports ≡ length self.old.ports }
        ensures flushed_at { (p : ℕ) → has_port result.flush p ≡ true
            → IsPort p (length self.new.ports) }
        ensures sent_at { All (λ sent. IsPort sent.0 (length self.new.ports)) out.new.items }
    {
        let effect = self.engine.event_within(event, limit, out);
        self.settled = effect.settled;
        effect
    }

    /// Returns the greatest number of firings at an event: 64 for each port and 64 more.
    fn most_firings(&self) -> usize
        ensures value { result ≡ firings_at self.now }
        ensures some { 1 ≤ result }
    {
        64 * (self.len() + 1)
    }

    /// Applies the event's direct effect, and then fires rules one after the other, up to the
    /// limit. Takes no memory.
    pub fn event_within(&mut self, event: Event, limit: usize) -> Outcome
        requires at { IsAt event (length self.old.ports) }
        requires some { 1 ≤ limit }
        requires most { limit ≤ firings_at self.old }
        ensures happens { Happens event limit self.old self.new result.settled result.flush }
        ensures settled { IsTrue result.settled ↔ IsSettled self.new }
        ensures out { result.out.items ≡ sent_from 1 self.new.ports }
        ensures ports { length self.new.ports ≡ length self.old.ports }

        // The flushed ports, and the ports that send, exist.
        ensures flushed_at { (p : ℕ) → has_port result.flush p ≡ true
            → IsPort p (length self.new.ports) }
        ensures sent_at { All (λ sent. IsPort sent.0 (length self.new.ports)) result.out.items }
    {
        let mut out = ArrayVec::new();
        let effect = self.go_within(event, limit, &mut out);
        Outcome {
            settled: effect.settled,
            flush: effect.flush,
            out,
        }
    }

    /// Processes the event with the greatest limit of firings: 64 for each port and 64 more.
    pub fn event(&mut self, event: Event) -> Outcome
        requires { IsAt event (length self.old.ports) }
        ensures happens { Happens event (firings_at self.old) self.old self.new
            result.settled result.flush }
        ensures settled { IsTrue result.settled ↔ IsSettled self.new }
        ensures out { result.out.items ≡ sent_from 1 self.new.ports }
        ensures ports { length self.new.ports ≡ length self.old.ports }

        // The flushed ports, and the ports that send, exist.
        ensures flushed_at { (p : ℕ) → has_port result.flush p ≡ true
            → IsPort p (length self.new.ports) }
        ensures sent_at { All (λ sent. IsPort sent.0 (length self.new.ports)) result.out.items }
    {
        let limit = self.most_firings();
        self.event_within(event, limit)
    }

    /// Processes the event like `event`, but replaces the content of `out` by the messages to send.
    /// A caller that keeps one list avoids clearing and copying a whole list, 4 KiB each.
    pub fn event_into(&mut self, event: Event, out: &mut ArrayVec<(u8, Bpdu), 64>) -> Effect
        requires { IsAt event (length self.old.ports) }
        ensures happens { Happens event (firings_at self.old) self.old self.new
            result.settled result.flush }
        ensures settled { IsTrue result.settled ↔ IsSettled self.new }
        ensures out { out.new.items ≡ sent_from 1 self.new.ports }
        ensures ports { length self.new.ports ≡ length self.old.ports }

        // The flushed ports, and the ports that send, exist.
        ensures flushed_at { (p : ℕ) → has_port result.flush p ≡ true
            → IsPort p (length self.new.ports) }
        ensures sent_at { All (λ sent. IsPort sent.0 (length self.new.ports)) out.new.items }
    {
        let limit = self.most_firings();
        self.go_within(event, limit, out)
    }

    /// Returns `true` if the port passes frames: the bridge is settled, and the port enabled and
    /// forwarding.
    pub fn passes(&self, p: u8) -> bool
        requires { IsPort p (length self.now.ports) }
        ensures exact { IsTrue result ↔ Passes self.now p }

        // A port that passes frames learns, and is the root port or a designated port.
        ensures learns { IsTrue result → Learns self.now p }
        ensures in_tree { IsTrue result → IsInTree self.now p }
    {
        is_passing(&self.engine, self.settled, p)
    }

    /// Returns `true` if the port learns addresses: the bridge is settled, and the port enabled and
    /// learning.
    pub fn learns(&self, p: u8) -> bool
        requires { IsPort p (length self.now.ports) }
        ensures { IsTrue result ↔ Learns self.now p }
    {
        let port = self.engine.port(p);
        self.settled && port.enabled && port.learning
    }

    /// Returns the state of the port.
    pub fn port(&self, p: u8) -> &PortState
        requires { IsPort p (length self.now.ports) }
        ensures value { slice_get self.now.ports (place_of_port p) ≡ Some result.now }
        ensures number { port_number result.now.identifier ≡ p }
    {
        self.engine.port(p)
    }
}
