//! The storm limit of a port: how many group and unknown frames of it the edge takes on in a
//! second. Each such frame goes to many ports and edges, so that one host could fill them all.
ghost use Rattle.std.specs.Prelude.{◌≡◌, ◌<◌, ◌-◌, ◌^◌, true, false, Some, IsSome};
ghost use Rattle.ev_claims.specs.LocalRoutes.{vni_at};
ghost use Rattle.ev_edge.specs.Limits.{is_met};
ghost use Rattle.ev_edge.specs.Storms.{storm_of, storms_of, storm_at, taken_in, taking, with_taken, is_flooded, is_stormy, taking_on};
ghost use Rattle.ev_edge.specs.Inner.Storms.{TakesOn};

use crate::config::PortConfig;
use crate::edge::Edge;
use crate::limits::is_met;
use crate::refusal::{EdgeRefusal, Refusal};
use arrayvec::ArrayVec;
use ether_wire::{Mac, Vni, place_of_port};

/// The storm limit of a port, and the group and unknown frames of the newest second in which the
/// edge took one on.
#[derive(Clone, Copy, Debug, PartialEq, Eq)]
pub(crate) struct Storm {
    /// The most of them in a second, if there is a limit.
    pub(crate) limit: Option<u64>,
    /// The second.
    pub(crate) second: u64,
    /// How many of them the edge took on in it.
    pub(crate) count: u64,
}

impl Default for Storm {
    /// Returns the content of an unused place of a list.
    fn default() -> Self {
        Storm::new(None)
    }
}

impl Storm {
    /// Returns the limit of a port at the opening, with no frame counted.
    fn new(limit: Option<u64>) -> Self
        ensures { result ≡ storm_of limit }
    {
        Storm {
            limit,
            second: 0,
            count: 0,
        }
    }
}

/// Returns the number of frames that were taken on in this second.
fn taken_in(storm: &Storm, second: u64) -> u64
    ensures { result ≡ taken_in storm.now second }
{
    if storm.second == second {
        storm.count
    } else {
        0
    }
}

/// Returns the limit with one more frame in this second.
fn taking(storm: &Storm, second: u64) -> Storm
    requires { taken_in storm.now second < 2 ^ 64 - 1 }
    ensures { result ≡ taking storm.now second }
{
    Storm {
        limit: storm.limit,
        second,
        count: taken_in(storm, second) + 1,
    }
}

/// Returns the storm limits of ports at the opening.
pub(crate) fn storms_of(ports: &ArrayVec<PortConfig, 64>) -> ArrayVec<Storm, 64>
    ensures { result.items ≡ storms_of ports.now.items }
{
    let mut storms = ArrayVec::new();
    let ports = ports.as_slice();
    for port in ports {
        storms.push(Storm::new(port.limits.storm));
    }
    storms
}

/// Returns the storm limit of a port.
fn storm_at(storms: &ArrayVec<Storm, 64>, port: u8) -> Storm
    requires { 0 < port }
    ensures { result ≡ storm_at storms.now.items port }
{
    let storm = storms.as_slice().get(place_of_port(port)).copied();
    storm.unwrap_or(Storm::new(None))
}

/// Counts one more frame of a port in this second.
#[tactic(auto, using(crate::proofs::Counting::taken_out, crate::proofs::Quotas::met_above))]
fn take_at(storms: &mut ArrayVec<Storm, 64>, port: u8, second: u64)
    requires port { 0 < port }
    requires some { IsSome (storm_at storms.old.items port).limit }
    requires few { is_met (storm_at storms.old.items port).limit
        (taken_in (storm_at storms.old.items port) second) ≡ false }
    ensures { storms.new.items ≡ with_taken storms.old.items port second }
{
    let storm = storm_at(storms, port);
    let Some(_limit) = storm.limit else { return };
    let place = place_of_port(port);
    if place < storms.len() {
        storms.as_mut_slice()[place] = taking(&storm, second);
    }
}

impl Edge {
    /// Returns `true` if a destination is a group address, or unknown: no port has learnt it, and
    /// no other edge owns it.
    fn is_flooded(&self, vni: Vni, destination: Mac) -> bool
        ensures { result ≡ is_flooded self.now vni destination }
    {
        if destination.is_group() {
            return true;
        }
        if self.port_of(vni, destination).is_some() {
            return false;
        }
        match self.routes.table().owner(vni, destination) {
            Some(edge) => edge == self.routes.address(),
            None => true,
        }
    }

    /// Takes on a frame for this destination that came at a port of its network. Counts it if the
    /// port has a storm limit and the destination is a group address or unknown.
    ///
    /// # Errors
    ///
    /// `PortStorm` exactly if the limit allows no further frame in this second. Nothing changed
    /// then.
    pub(crate) fn take_on(&mut self, port: u8, vni: Vni, destination: Mac) -> Result<(), Refusal>
        requires { vni_at self.old.routes.ports port ≡ Some vni }
        ensures { TakesOn port vni destination self.old result self.new }
    {
        let storm = storm_at(&self.storms, port);
        let Some(limit) = storm.limit else {
            return Ok(());
        };
        if !self.is_flooded(vni, destination) {
            return Ok(());
        }
        if limit <= taken_in(&storm, self.clock) {
            return Err(Refusal::Edge(EdgeRefusal::PortStorm(port)));
        }
        take_at(&mut self.storms, port, self.clock);
        Ok(())
    }
}
