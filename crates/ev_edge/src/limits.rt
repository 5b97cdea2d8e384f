//! The limits of a port: how many stations it may have at once, and how many new ones it may bring
//! within 60 seconds. They keep one host from filling the learning table, and from making registers
//! without end: each edge keeps a register for good.
ghost use Rattle.std.specs.Prelude.{◌≡◌, ◌<◌, ◌-◌, ◌^◌, false, Some, IsSome};
ghost use Rattle.mac_arena.specs.Learning.{entry_at};
ghost use Rattle.ev_claims.specs.LocalRoutes.{vni_at};
ghost use Rattle.ev_edge.specs.Limits.{no_limits, quota_of, is_met, quotas_of, quota_at, runs, count_in, counting, with_counted};
ghost use Rattle.ev_edge.specs.Learning.{needs_register, limits_at, is_there, is_crowded, is_busy, is_counted};

use crate::config::PortConfig;
use crate::edge::Edge;
use arrayvec::ArrayVec;
use ether_wire::place_of_port;
use mac_arena::Station;
use route_wire::{Ip, Key};

/// The number of seconds in which new stations are counted.
const LENGTH: u64 = 60;

/// The limits of an access port. A limit that is `None` never holds a station or a frame back.
#[derive(Clone, Copy, Debug, PartialEq, Eq)]
pub struct Limits {
    /// How many stations the port may have at once, learnt or pinned.
    pub stations: Option<u64>,
    /// How many new stations the port may bring within 60 seconds: stations of which the edge has
    /// no register in this incarnation.
    pub new_stations: Option<u64>,
    /// How many group and unknown frames of the port the edge takes on in a second.
    pub storm: Option<u64>,
}

impl Limits {
    /// Returns no limits.
    pub fn none() -> Self
        ensures { result ≡ no_limits }
    {
        Limits {
            stations: None,
            new_stations: None,
            storm: None,
        }
    }
}

/// The limits of a port, and its newest window: the 60 seconds in which new stations are counted.
#[derive(Clone, Copy, Debug, PartialEq, Eq)]
pub(crate) struct Quota {
    /// The port's limits.
    pub(crate) limits: Limits,
    /// The second at which the window started.
    pub(crate) start: u64,
    /// How many new stations the port has brought since.
    pub(crate) count: u64,
}

impl Default for Quota {
    /// Returns the content of an unused place of a list.
    fn default() -> Self {
        Quota::new(Limits::none())
    }
}

impl Quota {
    /// Returns the quota of a port at the opening: its window starts at second 0.
    fn new(limits: Limits) -> Self
        ensures { result ≡ quota_of limits }
    {
        Quota {
            limits,
            start: 0,
            count: 0,
        }
    }
}

/// Returns `true` if there are as many as the limit allows, or more.
pub(crate) fn is_met(limit: Option<u64>, count: u64) -> bool
    ensures { result ≡ is_met limit count }
{
    match limit {
        Some(limit) => limit <= count,
        None => false,
    }
}

/// Returns `true` if the quota's window has not ended at this second.
fn runs(quota: &Quota, second: u64) -> bool
    ensures { result ≡ runs quota.now second }
{
    second < quota.start || second - quota.start < LENGTH
}

/// Returns the number of new stations in the window that runs at this second.
fn count_in(quota: &Quota, second: u64) -> u64
    ensures { result ≡ count_in quota.now second }
{
    if runs(quota, second) { quota.count } else { 0 }
}

/// Returns the quota with one more new station at this second.
fn counting(quota: &Quota, second: u64) -> Quota
    requires { count_in quota.now second < 2 ^ 64 - 1 }
    ensures { result ≡ counting quota.now second }
{
    let start = if runs(quota, second) {
        quota.start
    } else {
        second
    };
    Quota {
        limits: quota.limits,
        start,
        count: count_in(quota, second) + 1,
    }
}

/// Returns the quotas of ports at the opening.
pub(crate) fn quotas_of(ports: &ArrayVec<PortConfig, 64>) -> ArrayVec<Quota, 64>
    ensures { result.items ≡ quotas_of ports.now.items }
{
    let mut quotas = ArrayVec::new();
    let ports = ports.as_slice();
    for port in ports {
        quotas.push(Quota::new(port.limits));
    }
    quotas
}

/// Returns the quota of a port.
fn quota_at(quotas: &ArrayVec<Quota, 64>, port: u8) -> Quota
    requires { 0 < port }
    ensures { result ≡ quota_at quotas.now.items port }
{
    let quota = quotas.as_slice().get(place_of_port(port)).copied();
    quota.unwrap_or(Quota::new(Limits::none()))
}

/// Counts one more new station of a port at this second.
#[tactic(auto, using(crate::proofs::Quotas::counted_out, crate::proofs::Quotas::met_above))]
fn count_at(quotas: &mut ArrayVec<Quota, 64>, port: u8, second: u64)
    requires port { 0 < port }
    requires some { IsSome (quota_at quotas.old.items port).limits.new_stations }
    requires few { is_met (quota_at quotas.old.items port).limits.new_stations
        (count_in (quota_at quotas.old.items port) second) ≡ false }
    ensures { quotas.new.items ≡ with_counted quotas.old.items port second }
{
    let quota = quota_at(quotas, port);
    let Some(_limit) = quota.limits.new_stations else {
        return
    };
    let place = place_of_port(port);
    if place < quotas.len() {
        quotas.as_mut_slice()[place] = counting(&quota, second);
    }
}

impl Edge {
    /// Returns `true` if the station, which isn't at the port, would be one too many there.
    #[tactic(auto, using(crate::proofs::Places::some_port, crate::proofs::Quotas::met_elsewhere))]
    pub(crate) fn is_crowded(&self, station: &Station, port: u8) -> bool
        requires port { vni_at self.now.routes.ports port ≡ Some station.now.vni }
        requires elsewhere { is_there (entry_at self.now.routes.learned station.now) port ≡ false }
        ensures { result ≡ is_crowded self.now station.now port }
    {
        let limit = quota_at(&self.quotas, port).limits.stations;
        is_met(limit, self.routes.stations_on(port) as u64)
    }

    /// Returns `true` if the station is new, and one too many within 60 seconds.
    pub(crate) fn is_busy(&self, station: &Station, port: u8) -> bool
        requires { 0 < port }
        ensures { result ≡ is_busy self.now station.now port }
    {
        let quota = quota_at(&self.quotas, port);
        is_met(quota.limits.new_stations, count_in(&quota, self.clock))
            && self.needs_register(station)
    }

    /// Returns `true` if the station is new, and the port has a limit of new ones.
    pub(crate) fn is_counted(&self, station: &Station, port: u8) -> bool
        requires { 0 < port }
        ensures { result ≡ is_counted self.now station.now port }
    {
        quota_at(&self.quotas, port).limits.new_stations.is_some() && self.needs_register(station)
    }

    /// Returns `true` if the edge has made no update of the station in this incarnation.
    fn needs_register(&self, station: &Station) -> bool
        ensures { result ≡ needs_register self.now station.now }
    {
        let none: Option<Ip> = None;
        let key = Key::Mac(station.vni, station.mac, none);
        match self.routes.table().register(self.routes.address(), key) {
            Some(update) => update.value().incarnation != self.routes.incarnation(),
            None => true,
        }
    }

    /// Counts a new station on a port whose limit allows one more.
    pub(crate) fn count_new(&mut self, port: u8)
        requires port { 0 < port }
        requires few { is_met (limits_at self.old port).new_stations
            (count_in (quota_at self.old.quotas port) self.old.clock) ≡ false }
        requires some { IsSome (limits_at self.old port).new_stations }
        ensures { self.new ≡ record self.old {
          quotas = with_counted self.old.quotas port self.old.clock;
        } }
    {
        count_at(&mut self.quotas, port, self.clock);
    }
}
