//! Frames: their sources are learnt, then they are forwarded.
ghost use Rattle.std.specs.Prelude.{◌≡◌, Some, IsSome, []};
ghost use Rattle.ev_claims.specs.LocalRoutes.{vni_at};
ghost use Rattle.ev_tunnel.specs.Decision.{IsFrom};
ghost use Rattle.ev_edge.specs.Arrival.{port_arrival, frame_arrival, serves, tunnel_arrival};
ghost use Rattle.std.specs.Option.{ForSome};
ghost use Rattle.ether_wire.specs.Ports.{IsPort};
ghost use Rattle.ev_edge.specs.Sending.{IsDecision, port_of};
ghost use Rattle.ev_edge.specs.Steps.{FrameSteps, TunnelSteps, DataSteps, LearnsAt, SendsIf, answered};

use crate::arrival::{Arrival, arrival_at, inner_arrival};
use crate::edge::Edge;
use crate::refusal::{EdgeRefusal, Refusal};
use crate::reply::Reply;
use arrayvec::ArrayVec;
use ether_wire::{Addr, Mac, NO_PORTS, Vni};
use ev_mobility::Alert;
use ev_tunnel::{Decision, Forwarding, Source, decide_into, unwrap_datagram};
use mac_arena::Station;
use rstp_run::Event;

/// Creates an empty decision if there is none.
fn make_room(decision: &mut Option<Decision>)
    ensures { IsSome decision.new }
{
    if decision.is_none() {
        *decision = Some(Decision {
            local: NO_PORTS,
            remote: ArrayVec::new(),
        });
    }
}

/// No port and no edge.
fn put_nowhere(decision: &mut Decision)
    ensures local { decision.new.local ≡ 0 }
    ensures remote { decision.new.remote.items ≡ [] }
{
    decision.local = NO_PORTS;
    decision.remote.clear();
}

impl Edge {
    /// These octets come at a port.
    pub(crate) fn frame(
        &mut self,
        port: u8,
        octets: &[u8],
        reply: &mut Reply,
    ) -> Result<(), Refusal>
        ensures { FrameSteps (frame_arrival self.old port octets.now) self.old port
            (answered result reply.new) self.new }
    {
        match self.port_arrival(port, octets)? {
            Arrival::Dropped => reply.clear(),
            Arrival::Message(bpdu) => self.bridge_event(Event::Bpdu(port, bpdu), reply),
            Arrival::Data(vni, destination, source) => {
                self.take_on(port, vni, destination)?;
                self.data(port, vni, destination, source, reply);
            }
        }
        Ok(())
    }

    /// Returns the kind of a port's frame, or the cause of its refusal, without the storm limit.
    fn port_arrival(&self, port: u8, octets: &[u8]) -> Result<Arrival, Refusal>
        ensures { result ≡ port_arrival self.now port octets.now }
    {
        let Some(vni) = self.routes.vni_of(port) else {
            return Err(Refusal::Edge(EdgeRefusal::NoSuchPort))
        };
        arrival_at(self.bridge.port(port).enabled, vni, octets)
    }

    /// A frame of a network comes at a port.
    fn data(&mut self, port: u8, vni: Vni, destination: Mac, source: Mac, reply: &mut Reply)
        requires { vni_at self.old.routes.ports port ≡ Some vni }
        ensures { DataSteps self.old port vni destination source reply.new self.new }
    {
        self.routes.always_good();
        let passes = self.bridge.passes(port);
        reply.keep_decision();
        reply.alert = self.learn_source(port, vni, source);
        self.send_if(
            passes,
            vni,
            destination,
            Source::Port(port),
            &mut reply.decision,
        );
    }

    /// Learns the source of a frame, if the port learns and it is no group address.
    fn learn_source(&mut self, port: u8, vni: Vni, source: Mac) -> Option<Alert>
        requires { vni_at self.old.routes.ports port ≡ Some vni }
        ensures { LearnsAt self.old port vni source result self.new }
    {
        if self.bridge.learns(port) && !source.is_group() {
            return self.learn(&Station { vni, mac: source }, port);
        }
        None
    }

    /// Decides where a frame of a network goes, in the place of another decision or of none.
    #[inline(always)]
    fn send_if(
        &self,
        passes: bool,
        vni: Vni,
        destination: Mac,
        from: Source,
        decision: &mut Option<Decision>,
    )
        requires { IsFrom from }
        ensures { SendsIf passes self.now vni destination from decision.new }
    {
        make_room(decision);
        if let Some(decision) = decision {
            if passes {
                self.decide(vni, destination, from, decision);
            } else {
                put_nowhere(decision);
            }
        }
    }

    /// The port where a destination is learnt.
    pub(crate) fn port_of(&self, vni: Vni, mac: Mac) -> Option<u8>
        ensures value { result ≡ port_of self.now vni mac }
        ensures port { ForSome result IsPort }
    {
        self.routes.always_good();
        match self.routes.look(&Station { vni, mac }) {
            Some(entry) => Some(entry.port),
            None => None,
        }
    }

    /// Decides where a frame of a network goes: to no edge that is away.
    fn decide(&self, vni: Vni, destination: Mac, from: Source, decision: &mut Decision)
        requires { IsFrom from }
        ensures { IsDecision self.now vni destination from decision.new }
    {
        let forwarding = Forwarding {
            destination,
            vni,
            from,
            learnt: self.port_of(vni, destination),
            table: self.routes.table(),
            own: self.routes.address(),
            away: &self.away,
        };
        decide_into(forwarding, self.routes.members(vni), self.passing, decision);
    }

    /// A datagram comes from another edge.
    pub(crate) fn tunnel_frame(
        &mut self,
        from: Addr,
        octets: &[u8],
        reply: &mut Reply,
    ) -> Result<(), Refusal>
        ensures { TunnelSteps (tunnel_arrival self.old from octets.now) self.old
            (answered result reply.new) self.new }
    {
        match self.tunnel_arrival(from, octets)? {
            Arrival::Data(vni, destination, _) => {
                reply.keep_decision();
                self.send_if(true, vni, destination, Source::Tunnel, &mut reply.decision);
            }
            _ => reply.clear(),
        }
        Ok(())
    }

    /// Whether a network is one of the edge's.
    fn serves(&self, vni: Vni) -> bool
        ensures { result ≡ serves self.now vni }
    {
        self.routes.has_vni(vni)
    }

    /// Returns the kind of a tunnel's datagram, or the cause of its refusal.
    fn tunnel_arrival(&self, from: Addr, octets: &[u8]) -> Result<Arrival, Refusal>
        ensures { result ≡ tunnel_arrival self.now from octets.now }
    {
        let listed = self.routes.table().originators().contains(&from);
        if !listed || from == self.routes.address() {
            return Err(Refusal::Edge(EdgeRefusal::UnknownOriginator));
        }
        let (vni, inner) = match unwrap_datagram(octets) {
            Ok(parts) => parts,
            Err(refusal) => return Err(Refusal::Vxlan(refusal)),
        };
        if !self.serves(vni) {
            return Err(Refusal::Edge(EdgeRefusal::NoSuchVni));
        }
        inner_arrival(vni, inner)
    }
}
