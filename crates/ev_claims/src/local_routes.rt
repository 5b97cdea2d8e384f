//! The routes that an edge originates, the stations that it has learnt, and each change of them: a
//! station is advertised exactly while it is learnt.
ghost use Rattle.std.specs.Prelude.{◌≡◌, ◌≢◌, ◌⊎◌, ◌+◌, ◌<◌, ◌≤◌, ◌^◌, ◌↔◌, ℕ, [], true, false, IfOk, IfSome, IfNone, IsSome, is_some, length, slice_get, IsOk, OnOk, OnErr, Err, Some, None, Contains};
ghost use Rattle.ether_wire.specs.Addr.{is_group};
ghost use Rattle.route_join.specs.Table.{AreOriginators, value_at, is_listed};
ghost use Rattle.route_join.specs.Taken.{taken_of};
ghost use Rattle.mac_arena.specs.Learning.{entry_at, is_full, is_pinned, IsLatest};
ghost use Rattle.ether_wire.specs.Ports.{has_port};
ghost use Rattle.ev_claims.specs.Speaker.{announced, is_originated, is_ahead, is_spent, is_returning, IsOwnAt, IsNoOwnAt};
ghost use Rattle.ev_claims.specs.LocalRoutes.{AreGood, entries, stations_on, vni_at, is_member, key_of, station_of, after_advert, after_refresh, after_pin, after_shift, after_update, after_removal, after_take, after_losing_at, after_own, after_announcement, lost_at, loses_pinned};
ghost use Rattle.ev_claims.specs.Opening.{IsOpening};

mod leaving;

use crate::opening::Start;
pub use crate::speaker::OwnError;
use crate::speaker::Speaker;
use arrayvec::ArrayVec;
use ether_wire::{Addr, Mac, NO_PORTS, Vni, place_of_port, with_port};
use mac_arena::{Entry, MacTable, Station};
use route_join::{Table, TakeError, Taken};
use route_wire::{Advert, Content, Ip, Key, Update};
use std::alloc::{AllocError, Global};
use std::marker::Model;

/// This number of the latest own updates are found at once by their numbers, beside one for each
/// station that may be learnt: an event makes no more.
const LATEST: usize = 64;

/// The own routes of an edge and the stations that it has learnt on its ports.
///
/// The edge advertises exactly the stations that it has learnt, exactly the pinned ones as static,
/// and the flood lists of exactly its VNIs. Each change of an own route takes the next number, and
/// is pending until it is announced.
#[derive(Drop)]
pub struct LocalRoutes {
    speaker: Speaker,
    learned: MacTable,
    ports: ArrayVec<Vni, 64>,
    vnis: ArrayVec<Vni, 64>,
}

impl Model for LocalRoutes {
    ghost use Rattle.std.specs.Coded.{codes};
    ghost use Rattle.std.specs.FinMap.{code};
    ghost use Rattle.ev_claims.specs.LocalRoutes.{LocalRoutes as Kept, routes_of, KeepsRoutes};

    ghost Value = { Kept };

    ghost coded = { Prim.hlevel (codes, code) };

    ghost view = { λ c. routes_of c.speaker c.learned c.ports.items c.vnis.items };

    ghost invariant = { λ c. KeepsRoutes (routes_of c.speaker c.learned c.ports.items
        c.vnis.items) };
}

/// The result of another edge's update.
#[derive(Clone, Copy, Debug, PartialEq, Eq)]
pub struct Imported {
    /// The table's answer.
    pub taken: Taken,
    /// Whether it took a pinned station from the edge.
    pub lost_pinned: bool,
}

impl LocalRoutes {
    /// Returns an edge that has imported and learnt nothing. It advertises the flood list of each
    /// of its VNIs, the lowest first.
    pub fn open(alloc: Global, start: Start) -> Result<Self, AllocError>
        requires originators { AreOriginators start.originators.items }
        requires listed { Contains start.originators.items start.address }
        requires capacity { start.capacity ≤ 65536 }
        requires some { 0 < start.buckets }
        requires buckets { start.buckets ≤ 65536 }
        ensures { IfOk result (IsOpening start) }
    {
        let mut vnis = start.vnis;
        vnis.as_mut_slice().sort_unstable();
        let mut speaker = Speaker::new(
            alloc,
            start.address,
            start.incarnation,
            start.originators,
            start.capacity + LATEST,
            start.salt,
        )?;
        speaker.open(vnis.as_slice())?;
        let ports = start.ports.len() as u8;
        let learned = MacTable::new(alloc, start.capacity, ports, start.buckets, start.salt)?;
        Ok(LocalRoutes {
            speaker,
            learned,
            ports: start.ports,
            vnis,
        })
    }

    /// A law, which does nothing: own routes and stations match each other, the numbers are
    /// consistent, and the lists of the learning table name the stations.
    pub fn always_good(&self)
        ensures { AreGood self.now }
    {
        self.speaker.always_numbered();
        let _count = self.learned.len();
    }

    /// The address under which the edge speaks.
    pub fn address(&self) -> Addr
        ensures { result ≡ self.now.speaker.address }
    {
        self.speaker.address()
    }

    /// Which incarnation of its originator the edge leads.
    pub fn incarnation(&self) -> u32
        ensures { result ≡ self.now.speaker.incarnation }
    {
        self.speaker.incarnation()
    }

    /// Returns the imported and originated routes.
    pub fn table(&self) -> &Table
        ensures { result.now ≡ self.now.speaker.table }
    {
        self.speaker.table()
    }

    /// The last number that was given to an own update.
    pub fn counter(&self) -> u64
        ensures { result ≡ self.now.speaker.counter }
    {
        self.speaker.counter()
    }

    /// The own update of this incarnation with this number, if it is still its register's value.
    pub fn own_at(&self, counter: u64) -> Option<Update>
        ensures some { IfSome result (IsOwnAt self.now.speaker counter) }
        ensures none { IfNone result (IsNoOwnAt self.now.speaker counter) }
    {
        self.speaker.own_at(counter)
    }

    /// How many stations are learnt.
    pub fn entries(&self) -> usize
        ensures { result ≡ entries self.now }
    {
        self.learned.len()
    }

    /// Whether there is no room for one more station.
    pub fn is_full(&self) -> bool
        ensures { result ≡ is_full self.now.learned }
    {
        self.learned.is_full()
    }

    /// Returns the entry of a station.
    pub fn look(&self, station: &Station) -> Option<Entry>
        ensures { result ≡ entry_at self.now.learned station.now }
    {
        self.learned.look(station)
    }

    /// The VNI of each port, port 1 first.
    pub fn ports(&self) -> &[Vni]
        ensures { result.now ≡ self.now.ports }
    {
        self.ports.as_slice()
    }

    /// The VNIs that the edge serves, on a port or on none.
    pub fn vnis(&self) -> &[Vni]
        ensures { result.now ≡ self.now.vnis }
    {
        self.vnis.as_slice()
    }

    /// Returns the VNI of a port, if there is this port.
    pub fn vni_of(&self, port: u8) -> Option<Vni>
        ensures { result ≡ vni_at self.now.ports port }
    {
        if port == 0 {
            return None;
        }
        self.ports.as_slice().get(place_of_port(port)).copied()
    }

    /// Whether the edge serves the VNI, on a port or on none.
    pub fn has_vni(&self, vni: Vni) -> bool
        ensures { (result ≡ true) ↔ Contains self.now.vnis vni }
    {
        self.vnis.as_slice().contains(&vni)
    }

    /// The ports of a VNI, as a set.
    pub fn members(&self, vni: Vni) -> u64
        ensures { (p : ℕ) → has_port result p ≡ is_member self.now.ports vni p }
    {
        let mut set = NO_PORTS;
        for (place, port_vni) in self.ports.iter().enumerate() {
            if *port_vni == vni {
                set = with_port(set, place as u8 + 1);
            }
        }
        set
    }

    /// Returns the number of stations at a port, learnt or pinned.
    pub fn stations_on(&self, port: u8) -> usize
        requires { IsSome (vni_at self.now.ports port) }
        ensures { result ≡ stations_on self.now port }
    {
        self.learned.count_at(port)
    }

    /// Learns a new station on a port of its VNI at a second that isn't below an earlier one, and
    /// advertises it with this sequence number.
    ///
    /// # Errors
    ///
    /// `AllocError` if the edge has made no update of the station in this incarnation, and memory
    /// is refused. Then nothing has changed.
    pub fn advertise(
        &mut self,
        station: &Station,
        port: u8,
        second: u64,
        sequence: u32,
    ) -> Result<(), AllocError>
        requires individual { is_group station.now.mac ≡ false }
        requires port { vni_at self.old.ports port ≡ Some station.now.vni }
        requires new { entry_at self.old.learned station.now ≡ None }
        requires room { is_full self.old.learned ≡ false }
        requires number { self.old.speaker.counter < 2 ^ 63 }
        requires latest { IsLatest self.old.learned second }
        ensures there { is_originated self.old.speaker (key_of station.now) ≡ true → IsOk result }
        ensures ok { OnOk result
            (self.new ≡ after_advert self.old station.now port second sequence) }
        ensures err { OnErr result (self.new ≡ self.old) }
    {
        let advert = Advert {
            is_static: false,
            sequence,
            label2: None,
        };
        self.speaker
            .originate(&key_of(station), Content::Advert(advert))?;
        let _learnt = self.learned.learn(station, port, second);
        Ok(())
    }

    /// Notes a frame of a learnt, unpinned station on a port of its VNI, the same or another one,
    /// at a second that is not below an earlier one. No update is made, and it takes no memory.
    pub fn refresh(&mut self, station: &Station, port: u8, second: u64)
        requires port { vni_at self.old.ports port ≡ Some station.now.vni }
        requires there { IsSome (entry_at self.old.learned station.now) }
        requires unpinned { is_pinned (entry_at self.old.learned station.now) ≡ false }
        requires latest { IsLatest self.old.learned second }
        ensures { self.new ≡ after_refresh self.old station.now port second }
    {
        let _learnt = self.learned.learn(station, port, second);
    }

    /// Pins a station on a port of its VNI, whether it is learnt or not, and
    /// advertises it as static.
    ///
    /// # Errors
    ///
    /// `AllocError` if the edge has made no update of the station in this incarnation, and memory
    /// is refused. Then nothing has changed.
    pub fn pin(&mut self, station: &Station, port: u8) -> Result<(), AllocError>
        requires individual { is_group station.now.mac ≡ false }
        requires port { vni_at self.old.ports port ≡ Some station.now.vni }
        requires room { entry_at self.old.learned station.now ≡ None
            → is_full self.old.learned ≡ false }
        requires number { self.old.speaker.counter < 2 ^ 63 }
        ensures there { is_originated self.old.speaker (key_of station.now) ≡ true → IsOk result }
        ensures ok { OnOk result (self.new ≡ after_pin self.old station.now port) }
        ensures err { OnErr result (self.new ≡ self.old) }
    {
        let advert = Advert {
            is_static: true,
            sequence: 0,
            label2: None,
        };
        self.speaker
            .originate(&key_of(station), Content::Advert(advert))?;
        let _pinned = self.learned.pin(station, port);
        Ok(())
    }

    /// Pins a pinned station on another port of its VNI. No update is made, and it takes no memory.
    pub fn shift(&mut self, station: &Station, port: u8)
        requires port { vni_at self.old.ports port ≡ Some station.now.vni }
        requires pinned { is_pinned (entry_at self.old.learned station.now) ≡ true }
        ensures { self.new ≡ after_shift self.old station.now port }
    {
        let _pinned = self.learned.pin(station, port);
    }

    /// Takes a station out that is learnt, and withdraws it. It takes no memory.
    pub fn remove(&mut self, station: &Station)
        requires { IsSome (entry_at self.old.learned station.now) }
        ensures { self.new ≡ after_removal self.old station.now }
    {
        let key = key_of(station);
        let _was = self.learned.remove(station);
        self.speaker.withdraw(key);
    }

    /// Takes another edge's update. A station that it takes from this edge goes, and is
    /// withdrawn, in the same step.
    ///
    /// # Errors
    ///
    /// `UnknownOriginator` exactly where the edge doesn't listen to its originator, `NoMemory`
    /// where its register is new and memory was refused. Nothing changed then.
    pub fn import(&mut self, update: &Update) -> Result<Imported, TakeError>
        requires { update.now.register.originator ≢ self.old.speaker.address }
        ensures taken { IfOk result
            (λ heard. heard.taken ≡ taken_of self.old.speaker.table update.now) }
        ensures lost { IfOk result (λ heard. heard.lost_pinned ≡ loses_pinned self.old update.now) }
        ensures ok { OnOk result (self.new ≡ after_take self.old update.now) }
        ensures unknown { (result ≡ Err TakeError.UnknownOriginator)
            ↔ (is_listed self.old.speaker.table update.now.register.originator ≡ false) }
        ensures no_memory { result ≡ Err TakeError.NoMemory
            → value_at self.old.speaker.table update.now.register ≡ None }
        ensures err { OnErr result (self.new ≡ self.old) }
    {
        let taken = self.speaker.import(update)?;
        let lost_pinned = match station_of(update.register().key) {
            None => false,
            Some(station) => self.lose(&station),
        };
        Ok(Imported { taken, lost_pinned })
    }

    /// Takes an update under the edge's own name. An advert of an earlier incarnation that would
    /// become its register's value is withdrawn in the same step, by its key; a withdrawal of an
    /// earlier incarnation that becomes its register's value takes no number and isn't pending.
    ///
    /// # Errors
    ///
    /// `Ahead` and `Spent` exactly where their conditions hold; `NoMemory` where the register is
    /// new, or an advert returns, and memory was refused. Nothing changed then.
    pub fn import_own(&mut self, update: &Update) -> Result<Taken, OwnError>
        requires { update.now.register.originator ≡ self.old.speaker.address }
        ensures taken { IfOk result (λ taken. taken ≡ taken_of self.old.speaker.table update.now) }
        ensures ok { OnOk result (self.new ≡ after_own self.old update.now) }
        ensures ahead { (result ≡ Err OwnError.Ahead)
            ↔ (is_ahead self.old.speaker update.now ≡ true) }
        ensures spent { (result ≡ Err OwnError.Spent)
            ↔ (is_spent self.old.speaker update.now ≡ true) }
        ensures no_memory { result ≡ Err OwnError.NoMemory
            → (value_at self.old.speaker.table update.now.register ≡ None)
            ⊎ (is_returning self.old.speaker update.now ≡ true) }
        ensures err { OnErr result (self.new ≡ self.old) }
    {
        self.speaker.always_numbered();
        self.speaker.import_own(update)
    }

    /// Whether an own register waits to be announced.
    pub fn has_pending(&self) -> bool
        ensures { result ≡ is_some (slice_get self.now.speaker.pending 0) }
    {
        self.speaker.has_pending()
    }

    /// How many own registers wait to be announced.
    pub fn pending(&self) -> usize
        ensures { result ≡ length self.now.speaker.pending }
    {
        self.speaker.pending()
    }

    /// The present update of the own register that waits longest to be announced; it waits no more.
    pub fn announce(&mut self) -> Option<Update>
        ensures update { result ≡ announced self.old.speaker }
        ensures after { self.new ≡ after_announcement self.old }
        ensures none { IfNone result (self.old.speaker.pending ≡ []) }
    {
        self.speaker.announce()
    }

    /// Removes and withdraws a station if the edge advertises it and is not its owner. Returns
    /// whether it was pinned. The edge advertises exactly the stations that it has learnt, so this
    /// reads nothing else from the table.
    fn lose(&mut self, station: &Station) -> bool
        ensures lost { result ≡ is_pinned (lost_at self.old station.now) }
        ensures after { self.new ≡ after_losing_at self.old station.now }
    {
        let Some(entry) = self.learned.look(station) else {
            return false
        };
        if self.speaker.owns(station.vni, station.mac) {
            return false;
        }
        self.remove(station);
        entry.pinned
    }
}

/// The key of a station without an IP address.
fn key_of(station: &Station) -> Key
    ensures { result ≡ key_of station.now }
{
    let none: Option<Ip> = None;
    Key::Mac(station.vni, station.mac, none)
}

/// The station that a key is about, if it is about one.
fn station_of(key: Key) -> Option<Station>
    ensures { result ≡ station_of key }
{
    match key {
        Key::Flood(_) => None,
        Key::Mac(vni, mac, _) => Some(station(vni, mac)),
    }
}

/// The station of a network with an address.
fn station(vni: Vni, mac: Mac) -> Station
    ensures { result ≡ record { vni = vni; mac = mac } }
{
    Station { vni, mac }
}
