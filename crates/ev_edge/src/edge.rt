//! A provider edge: its opening, its step, and its views.
ghost use Rattle.std.specs.Prelude.{◌≡◌, IfOk, IfSome, IfNone, is_some, slice_get};
ghost use Rattle.ether_wire.specs.Ends.{Puts};
ghost use Rattle.route_join.specs.Report.{report_of};
ghost use Rattle.ev_claims.specs.Speaker.{IsOwnAt, IsNoOwnAt};
ghost use Rattle.ev_claims.specs.LocalRoutes.{entries};
ghost use Rattle.std.specs.FinMap.{get};
ghost use Rattle.ev_mobility.specs.Window.{is_frozen};
ghost use Rattle.ev_edge.specs.Config.{IsConfig};
ghost use Rattle.ev_edge.specs.Edge.{IsGoodEdge, table_of};
ghost use Rattle.ev_edge.specs.Opening.{IsOpening};
ghost use Rattle.ev_edge.specs.Steps.{Steps, answered};

use crate::config::{EdgeConfig, PortConfig, set_settings, vnis_of};
use crate::event::Event;
use crate::limits::{Quota, quotas_of};
use crate::refusal::Refusal;
use crate::reply::Reply;
use crate::storms::{Storm, storms_of};
use arrayvec::ArrayVec;
use ether_wire::{Addr, Device, NO_PORTS, Out};
use ev_claims::{LocalRoutes, Start};
use ev_mobility::Moves;
use mac_arena::Station;
use route_join::Table;
use route_wire::Update;
use rstp_run::{Bridge, BridgeConfig, Event as BridgeEvent};
use std::alloc::{AllocError, Global};
use std::marker::Model;

/// An edge: its routes and stations, its bridge, its clock, the windows of moved stations, and the
/// quotas and storm limits of its ports.
///
/// It advertises exactly the stations that it has learnt, as static exactly those that are pinned,
/// and owns each of them.
#[derive(Drop)]
pub struct Edge {
    pub(crate) routes: LocalRoutes,
    pub(crate) clock: u64,
    pub(crate) ageing: u64,
    pub(crate) bridge: Bridge,
    pub(crate) moves: Moves,
    // The ports that pass.
    pub(crate) passing: u64,
    // The other edges that are away.
    pub(crate) away: ArrayVec<Addr, 64>,
    // The quota of each port.
    pub(crate) quotas: ArrayVec<Quota, 64>,
    // The storm limit of each port.
    pub(crate) storms: ArrayVec<Storm, 64>,
}

impl Model for Edge {
    ghost use Rattle.std.specs.Coded.{codes};
    ghost use Rattle.std.specs.FinMap.{code};
    ghost use Rattle.ev_edge.specs.Edge.{Edge as Kept, edge_of, IsEdge};

    ghost Value = { Kept };

    ghost coded = { Prim.hlevel (codes, code) };

    ghost view = { λ e. edge_of e.routes e.clock e.ageing e.bridge e.moves
        e.away.items e.quotas.items e.storms.items };

    ghost invariant = { λ e. IsEdge
        (edge_of e.routes e.clock e.ageing e.bridge e.moves e.away.items e.quotas.items
        e.storms.items)
        e.passing };
}

impl Edge {
    /// Returns an edge that has taken and learnt nothing, at second 0. It advertises the flood list
    /// of each of its VNIs, the lowest first. All ports are down, and no edge is away.
    ///
    /// # Errors
    ///
    /// `AllocError` if memory is refused.
    pub fn open(alloc: Global, config: EdgeConfig) -> Result<Self, AllocError>
        requires { IsConfig config }
        ensures { IfOk result (IsOpening config) }
    {
        let mut settings = [PortConfig::default().settings; 64];
        set_settings(&config.ports, &mut settings);
        let bridge = Bridge::new(BridgeConfig {
            settings: config.tree,
            ports: &settings[..config.ports.len()],
        });
        let quotas = quotas_of(&config.ports);
        let storms = storms_of(&config.ports);
        let start = Start {
            address: config.address,
            incarnation: config.incarnation,
            ports: vnis_of(&config.ports),
            originators: config.originators,
            vnis: config.vnis,
            capacity: config.capacity,
            buckets: config.buckets,
            salt: config.salt,
        };
        let routes = LocalRoutes::open(alloc, start)?;
        Ok(Edge {
            routes,
            clock: 0,
            ageing: config.ageing,
            bridge,
            moves: Moves::new(alloc),
            passing: NO_PORTS,
            away: ArrayVec::new(),
            quotas,
            storms,
        })
    }

    /// One event. A frame that comes at a port is learnt from before it is sent; an
    /// update that takes a station from the edge withdraws it in the same step; so does
    /// whatever flushes or ages it.
    ///
    /// # Errors
    ///
    /// Each exactly where its cause is the first one, as `Steps` tells them. Nothing changed then.
    pub fn step(&mut self, event: &Event<'_>) -> Result<Reply, Refusal>
        ensures { Steps self.old event.now result self.new }
    {
        let mut reply = Reply::nothing();
        match self.step_into(event, &mut reply) {
            Ok(()) => Ok(reply),
            Err(refusal) => Err(refusal),
        }
    }

    /// Does the same and overwrites another reply: a caller that reuses one reply avoids copies of
    /// a whole one. After a refusal the content of the reply is unspecified.
    ///
    /// # Errors
    ///
    /// As those of `step`.
    pub fn step_into(&mut self, event: &Event<'_>, reply: &mut Reply) -> Result<(), Refusal>
        ensures { Steps self.old event.now (answered result reply.new) self.new }
    {
        match event {
            Event::Frame(port, octets) => self.frame(*port, *octets, reply),
            Event::TunnelFrame(from, octets) => self.tunnel_frame(*from, *octets, reply),
            Event::Take(update) => self.take(update, reply),
            Event::Pin(station, port) => self.pin(station, *port, reply),
            Event::Unpin(station) => {
                self.unpin(station, reply);
                Ok(())
            }
            Event::Thaw(station) => {
                self.thaw(station, reply);
                Ok(())
            }
            Event::Second => {
                self.second(reply);
                Ok(())
            }
            Event::PortUp(port) => self.port_event(*port, BridgeEvent::PortUp(*port), reply),
            Event::PortDown(port) => self.port_event(*port, BridgeEvent::PortDown(*port), reply),
            Event::Mcheck(port) => self.port_event(*port, BridgeEvent::Mcheck(*port), reply),
            Event::Announce => {
                self.announce(reply);
                Ok(())
            }
            Event::Away(edge) => self.goes_away(*edge, reply),
            Event::Back(edge) => self.comes_back(*edge, reply),
        }
    }

    /// A law, which does nothing: an edge is always good.
    pub fn always_good(&self)
        ensures { IsGoodEdge self.now }
    {
        self.routes.always_good();
    }

    /// Returns the table of imported and own routes.
    pub fn table(&self) -> &Table
        ensures { result.now ≡ table_of self.now }
    {
        self.routes.table()
    }

    /// Writes the report of the edge's table: a line for each register, and one for the owner of
    /// each MAC address behind its last register. It takes no memory.
    ///
    /// # Errors
    ///
    /// `Device` exactly where a call of the writer failed; then no further call is made.
    pub fn report<W: Out>(&self, out: &mut W) -> Result<(), Device>
        ensures { Puts (W.end out.old) (W.end out.new) (report_of (table_of self.now)) result }
    {
        self.table().write_report(out)
    }

    /// Returns the own routes and the stations of the edge.
    pub fn routes(&self) -> &LocalRoutes
        ensures { result.now ≡ self.now.routes }
    {
        &self.routes
    }

    /// How many seconds the edge has been open.
    pub fn clock(&self) -> u64
        ensures { result ≡ self.now.clock }
    {
        self.clock
    }

    /// Whether a station is frozen for moving too often.
    pub fn is_frozen(&self, station: &Station) -> bool
        ensures { result ≡ is_frozen (get self.now.windows station.now) }
    {
        self.moves.frozen(station)
    }

    /// The edge's bridge.
    pub fn bridge(&self) -> &Bridge
        ensures { result.now ≡ self.now.tree }
    {
        &self.bridge
    }

    /// How many stations are learnt.
    pub fn entries(&self) -> usize
        ensures { result ≡ entries self.now.routes }
    {
        self.routes.entries()
    }

    /// The last number that was given to an own update.
    pub fn counter(&self) -> u64
        ensures { result ≡ self.now.routes.speaker.counter }
    {
        self.routes.counter()
    }

    /// The own update of this incarnation with this number, if it is still its register's value.
    pub fn own_at(&self, counter: u64) -> Option<Update>
        ensures some { IfSome result (IsOwnAt self.now.routes.speaker counter) }
        ensures none { IfNone result (IsNoOwnAt self.now.routes.speaker counter) }
    {
        self.routes.own_at(counter)
    }

    /// Returns the other edges that are away, in the order of the listed originators.
    pub fn away(&self) -> &[Addr]
        ensures { result.now ≡ self.now.away }
    {
        self.away.as_slice()
    }

    /// Whether an own register waits to be announced.
    pub fn has_pending(&self) -> bool
        ensures { result ≡ is_some (slice_get self.now.routes.speaker.pending 0) }
    {
        self.routes.has_pending()
    }
}
