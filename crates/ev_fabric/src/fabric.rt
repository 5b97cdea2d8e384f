//! Edges and the pool of the updates that they have announced, and each step of them.
ghost use Rattle.std.specs.Prelude.{◌≡◌, ◌<◌, ◌≤◌, true, IfOk, IsSome, OnOk, OnErr, length, option_map, vec_len, vec_capacity};
ghost use Rattle.ev_edge.specs.Steps.{nothing};
ghost use Rattle.ev_fabric.specs.declared.step.Step.TheVariants.{Local, Announce, Deliver, Restart};
ghost use Rattle.ev_fabric.specs.Fabric.{nth};
ghost use Rattle.ev_fabric.specs.Opening.{AreConfigs, IsStart, AreOpened};
ghost use Rattle.ev_fabric.specs.Sound.{IsSound};
ghost use Rattle.ev_fabric.specs.Steps.{FabricSteps, of_edge, in_incarnation, with_announced};
ghost use Rattle.ev_fabric.specs.Inner.Steps.{OneSteps};

use crate::refusal::FabricRefusal;
use crate::step::{LocalEvent, Step, event_of};
use arrayvec::ArrayVec;
use ev_edge::{Edge, EdgeConfig, Event, Reply};
use route_wire::Update;
use std::alloc::{AllocError, Global};
use std::marker::Model;

/// Edges that share a pool of announced updates. Both are numbered from 1.
///
/// Each edge is good, each value that an edge has from another edge was announced, and the pool has
/// one update per register, incarnation and number.
#[derive(Drop)]
pub struct Fabric {
    alloc: Global,
    edges: Vec<Edge>,
    // The configuration with which each edge was opened last.
    configs: Vec<EdgeConfig>,
    pool: Vec<Update>,
}

impl Model for Fabric {
    ghost use Rattle.std.specs.Coded.{codes};
    ghost use Rattle.std.specs.FinMap.{code};
    ghost use Rattle.ev_fabric.specs.Fabric.{Fabric as Kept, fabric_of};
    ghost use Rattle.ev_fabric.specs.Sound.{IsSound};

    ghost Value = { Kept };

    ghost coded = { Prim.hlevel (codes, code) };

    ghost view = { λ f. fabric_of f.edges.items f.configs.items f.pool.items };

    ghost invariant = { λ f. IsSound (fabric_of f.edges.items f.configs.items f.pool.items) };
}

/// Returns a copy of the list.
fn copy_of<T: Copy + Default>(list: &ArrayVec<T, 64>) -> ArrayVec<T, 64>
    ensures { result.items ≡ list.now.items }
{
    let mut copy = ArrayVec::new();
    let _fits = copy.try_extend_from_slice(list.as_slice());
    copy
}

/// Returns the configuration with this incarnation.
fn in_incarnation(config: &EdgeConfig, incarnation: u32) -> EdgeConfig
    ensures { result ≡ in_incarnation config.now incarnation }
{
    EdgeConfig {
        address: config.address,
        incarnation,
        originators: copy_of(&config.originators),
        vnis: copy_of(&config.vnis),
        tree: config.tree,
        ageing: config.ageing,
        capacity: config.capacity,
        buckets: config.buckets,
        salt: config.salt,
        ports: copy_of(&config.ports),
    }
}

/// Opens an edge for each configuration, in their order.
fn open_all(alloc: Global, configs: &[EdgeConfig]) -> Result<Vec<Edge>, AllocError>
    requires { AreConfigs configs.now }
    ensures { IfOk result (λ edges. AreOpened configs.now edges.items) }
{
    let mut edges = Vec::new(alloc);
    for config in configs {
        let edge = Edge::open(alloc, in_incarnation(config, config.incarnation))?;
        edge.always_good();
        edges.push(edge)?;
    }
    Ok(edges)
}

/// Steps the edge at place `e`, counted from 1.
fn step_edge(edges: &mut Vec<Edge>, e: usize, event: &Event<'_>) -> Result<Reply, FabricRefusal>
    requires some { 0 < e }
    requires there { e ≤ length edges.old.items }
    ensures { OneSteps edges.old.items e event.now result edges.new.items }
{
    let edge = &mut edges[e - 1];
    let answer = edge.step(event);
    match answer {
        Ok(reply) => Ok(reply),
        Err(refusal) => Err(FabricRefusal::Edge(refusal)),
    }
}

/// Reserves room for one more update in the pool if `is_wanted`.
fn make_room(pool: &mut Vec<Update>, is_wanted: bool) -> Result<(), AllocError>
    ensures items { pool.new.items ≡ pool.old.items }
    ensures room { OnOk result
        (is_wanted ≡ true → vec_len pool.new < vec_capacity pool.new) }
    ensures err { OnErr result (is_wanted ≡ true) }
{
    if is_wanted {
        pool.reserve(1)?;
    }
    Ok(())
}

/// Appends the announced update to the pool, if there is one.
fn put(pool: &mut Vec<Update>, announced: &Option<Update>)
    requires { IsSome announced.now → vec_len pool.old < vec_capacity pool.old }
    ensures { pool.new.items ≡ with_announced pool.old.items announced.now }
{
    if let Some(update) = announced {
        pool.push_reserved(*update);
    }
}

impl Fabric {
    /// Returns a fabric of edges opened with these configurations, in their order, with an empty
    /// pool.
    ///
    /// # Errors
    ///
    /// `AllocError` if memory is refused.
    pub fn new(alloc: Global, configs: Vec<EdgeConfig>) -> Result<Self, AllocError>
        requires { AreConfigs configs.items }
        ensures { IfOk result (IsStart configs.items) }
    {
        let edges = open_all(alloc, configs.as_slice())?;
        Ok(Fabric {
            alloc,
            edges,
            configs,
            pool: Vec::new(alloc),
        })
    }

    /// Steps the named edge, and no other.
    ///
    /// # Errors
    ///
    /// `NoSuchEdge`, `NoSuchUpdate` and `NoHigher` exactly if their conditions hold, in this order.
    /// `NoMemory` if memory is refused: the announcement is then still pending (this error can't
    /// come if nothing was pending), and a restart leaves the old edge in place. `Edge` if the edge
    /// refuses the event. Nothing changed then.
    pub fn step(&mut self, step: &Step<'_>) -> Result<Reply, FabricRefusal>
        ensures { FabricSteps self.old step.now result self.new }
    {
        match step {
            Step::Local(e, event) => self.local(*e, event),
            Step::Announce(e) => self.announce(*e),
            Step::Deliver(e, k) => self.deliver(*e, *k),
            Step::Restart(e, n) => self.restart(*e, *n),
        }
    }

    /// States that a fabric is always sound (a law, which does nothing).
    pub fn always_sound(&self)
        ensures { IsSound self.now }
    {
        let _ = &self.pool;
    }

    /// Returns the number of edges.
    pub fn edges(&self) -> usize
        ensures { result ≡ length self.now.edges }
    {
        self.edges.len()
    }

    /// Returns the edge of this number, counted from 1, if it exists.
    pub fn edge(&self, e: usize) -> Option<&Edge>
        ensures { option_map (λ edge. edge.now) result ≡ nth self.now.edges e }
    {
        if e == 0 {
            return None;
        }
        self.edges.get(e - 1)
    }

    /// Returns the announced updates, the first one first.
    pub fn pool(&self) -> &[Update]
        ensures { result.now ≡ self.now.pool }
    {
        self.pool.as_slice()
    }

    /// Passes an event from outside to an edge.
    fn local(&mut self, e: usize, event: &LocalEvent<'_>) -> Result<Reply, FabricRefusal>
        ensures { FabricSteps self.old (Local e event.now) result self.new }
    {
        if e == 0 || e > self.edges.len() {
            return Err(FabricRefusal::NoSuchEdge);
        }
        step_edge(&mut self.edges, e, &event_of(event))
    }

    /// Announces the first pending register of an edge. If there is one, this reserves room in the
    /// pool first.
    fn announce(&mut self, e: usize) -> Result<Reply, FabricRefusal>
        ensures { FabricSteps self.old (Announce e) result self.new }
    {
        if e == 0 || e > self.edges.len() {
            return Err(FabricRefusal::NoSuchEdge);
        }
        let is_wanted = self.edges[e - 1].has_pending();
        if make_room(&mut self.pool, is_wanted).is_err() {
            return Err(FabricRefusal::NoMemory);
        }
        let reply = step_edge(&mut self.edges, e, &Event::Announce)?;
        put(&mut self.pool, &reply.announced);
        Ok(reply)
    }

    /// Delivers an update of the pool to an edge.
    fn deliver(&mut self, e: usize, k: usize) -> Result<Reply, FabricRefusal>
        ensures { FabricSteps self.old (Deliver e k) result self.new }
    {
        if e == 0 || e > self.edges.len() {
            return Err(FabricRefusal::NoSuchEdge);
        }
        if k == 0 || k > self.pool.len() {
            return Err(FabricRefusal::NoSuchUpdate);
        }
        let update = self.pool[k - 1];
        step_edge(&mut self.edges, e, &Event::Take(update))
    }

    /// Opens an edge again in a higher incarnation.
    fn restart(&mut self, e: usize, n: u32) -> Result<Reply, FabricRefusal>
        ensures { FabricSteps self.old (Restart e n) result self.new }
    {
        if e == 0 || e > self.edges.len() {
            return Err(FabricRefusal::NoSuchEdge);
        }
        if n <= self.configs[e - 1].incarnation {
            return Err(FabricRefusal::NoHigher);
        }
        let config = in_incarnation(&self.configs[e - 1], n);
        let Ok(edge) = Edge::open(self.alloc, config) else {
            return Err(FabricRefusal::NoMemory)
        };
        edge.always_good();
        self.edges[e - 1] = edge;
        self.configs[e - 1].incarnation = n;
        Ok(Reply::nothing())
    }
}
