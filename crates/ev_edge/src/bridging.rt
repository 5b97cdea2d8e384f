//! Events of the bridge: the BPDUs that it sends, and the stations that it removes.
ghost use Rattle.std.specs.Prelude.{◌≡◌, ◌≤◌, ◌^◌, true, is_some, length};
ghost use Rattle.rstp_run.specs.Events.{IsAt, IsPort};
ghost use Rattle.ev_claims.specs.LocalRoutes.{vni_at};
ghost use Rattle.ev_edge.specs.Edge.{ArePassing};
ghost use Rattle.ev_edge.specs.Bridging.{BridgeGoes, next_second, aged};
ghost use Rattle.ev_edge.specs.Inner.Bridging.{AddsPassing};
ghost use Rattle.ev_edge.specs.Steps.{BridgeSteps, BridgesAt, SecondSteps, answered};

use crate::edge::Edge;
use crate::refusal::{EdgeRefusal, Refusal};
use crate::reply::Reply;
use arrayvec::ArrayVec;
use bpdu_wire::Bpdu;
use ether_wire::{NO_PORTS, with_port};
use ev_claims::LocalRoutes;
use rstp_run::{Bridge, Event};

/// The last second: the clock stays there.
const LAST_SECOND: u64 = 0x8000_0000_0000_0000;

/// The set and this port, if it passes.
fn with_passing(set: u64, bridge: &Bridge, port: u8) -> u64
    requires there { IsPort port (length bridge.now.ports) }
    requires few { length bridge.now.ports ≤ 64 }
    ensures { AddsPassing bridge.now set port result }
{
    if bridge.passes(port) {
        return with_port(set, port);
    }
    set
}

/// The ports that pass.
fn passing_ports(bridge: &Bridge) -> u64
    ensures { ArePassing bridge.now result }
{
    let mut set = NO_PORTS;
    for place in 0..bridge.len() {
        set = with_passing(set, bridge, place as u8 + 1);
    }
    set
}

/// Gives the bridge an event, on which it fires rules until it is settled, or has fired as often as
/// it may. Its BPDUs replace the list's content. Returns the ports that it flushes.
#[tactic(auto, using(crate::proofs::Going::goes_by))]
fn go_on(bridge: &mut Bridge, event: Event, sent: &mut ArrayVec<(u8, Bpdu), 64>) -> u64
    requires { IsAt event (length bridge.old.ports) }
    ensures goes { BridgeGoes event bridge.old bridge.new result sent.new.items }
    ensures ports { length bridge.new.ports ≡ length bridge.old.ports }
{
    bridge.event_into(event, sent).flush
}

/// The second after this one: at 2^63 the clock stays.
fn next_second(clock: u64) -> u64
    requires { clock ≤ 2 ^ 63 }
    ensures { result ≡ next_second clock }
{
    if clock == LAST_SECOND {
        clock
    } else {
        clock + 1
    }
}

/// Removes the stations that have been silent for too many seconds.
fn age(routes: &mut LocalRoutes, ageing: u64, clock: u64)
    ensures { routes.new ≡ aged routes.old ageing clock }
{
    if clock >= ageing {
        routes.age(clock - ageing);
    }
}

impl Edge {
    /// An event of the bridge at a port that is there: the bridge goes on, and the stations behind
    /// the ports that it flushes go.
    pub(crate) fn bridge_event(&mut self, event: Event, reply: &mut Reply)
        requires { IsAt event (length self.old.tree.ports) }
        ensures { BridgeSteps event self.old reply.new self.new }
    {
        reply.clear();
        let flush = go_on(&mut self.bridge, event, &mut reply.bpdus);
        self.passing = passing_ports(&self.bridge);
        self.routes.flush(flush);
    }

    /// A second passes. The stations behind the ports that the bridge flushes go first, then those
    /// that weren't heard for long enough.
    pub(crate) fn second(&mut self, reply: &mut Reply)
        ensures { SecondSteps self.old reply.new self.new }
    {
        reply.clear();
        let flush = go_on(&mut self.bridge, Event::Second, &mut reply.bpdus);
        self.passing = passing_ports(&self.bridge);
        self.clock = next_second(self.clock);
        self.routes.flush(flush);
        age(&mut self.routes, self.ageing, self.clock);
    }

    /// Returns `true` if there is such a port, by number.
    fn is_there(&self, port: u8) -> bool
        ensures value { result ≡ is_some (vni_at self.now.routes.ports port) }
        ensures port { result ≡ true → IsPort port (length self.now.tree.ports) }
    {
        self.routes.vni_of(port).is_some()
    }

    /// Gives the bridge an event at a port, if there is such a port: the port comes up or goes
    /// down, or detects its neighbour's protocol again.
    pub(crate) fn port_event(
        &mut self,
        port: u8,
        event: Event,
        reply: &mut Reply,
    ) -> Result<(), Refusal>
        requires { IsPort port (length self.old.tree.ports)
            → IsAt event (length self.old.tree.ports) }
        ensures { BridgesAt (vni_at self.old.routes.ports port) event self.old
            (answered result reply.new) self.new }
    {
        if !self.is_there(port) {
            return Err(Refusal::Edge(EdgeRefusal::NoSuchPort));
        }
        self.bridge_event(event, reply);
        Ok(())
    }
}
