//! The learning table: a map from stations to their ports, over slots and the
//! orders of their nodes.
ghost use Rattle.std.specs.Prelude.{◌≡◌, ℕ, ◌+◌, ◌<◌, ◌≤◌, ◌^◌, true, false, Some, None, length, slice_get, IfOk, IfSome, IfNone, MatchOption};
ghost use Rattle.std.specs.FinMap.{len};
ghost use Rattle.ether_wire.specs.Ports.{place_of_port};
ghost use Rattle.mac_arena.specs.Learning.{Learning, nothing_learnt, entry_at, is_full, bucket_in, stations_at, learned_at, left, first_unpinned, IsLatest, entered, learnt_of, after_learn, can_pin, after_pin, after_removal};
ghost use Rattle.mac_arena.specs.Inner.Learning.{standing, heard, held, shifted, dropped};
ghost use Rattle.std.specs.Prelude.{is_some, replicate};
ghost use Rattle.mac_arena.specs.Entry.{pinned_at};
ghost use Rattle.mac_arena.specs.Inner.Slot.{held_on, shifted_to};
ghost use Rattle.mac_arena.specs.ListsName.{ListsName};

use crate::orders::NodeOrders;
use crate::slot::Slot;
use crate::station::{Entry, Learned, Station};
use ether_wire::place_of_port;
use std::alloc::{AllocError, Global};
use std::marker::Model;

/// The result of learning a station on a port.
#[derive(Clone, Copy, Debug, PartialEq, Eq)]
pub enum Learnt {
    /// The station was unknown, and is learnt.
    New,
    /// The station was at another port, and is at this one now.
    Moved,
    /// The station was at this port already; its second is updated.
    Refreshed,
    /// The station is pinned. Nothing changed.
    Pinned,
    /// The station is unknown, and there is no room. Nothing changed.
    Full,
}

/// A learning table: a map from stations to their ports, with the orders that
/// ageing and flushing need.
///
/// Each station is at one node; the table has as many nodes as its capacity. A node is on the chain
/// of its station's bucket, on the list of its port and, unless it is pinned, on the ageing list.
/// Otherwise it is free.
#[derive(Drop)]
pub struct MacTable {
    orders: NodeOrders,
    slots: Vec<Slot>,
    count: usize,
    buckets: u32,
    salt: u64,
}

impl Model for MacTable {
    ghost use Rattle.std.specs.Coded.{codes};
    ghost use Rattle.std.specs.FinMap.{code};
    ghost use Rattle.mac_arena.specs.Learning.{Learning};

    ghost Value = { Learning };

    ghost coded = { Prim.hlevel (codes, code) };

    ghost use Rattle.mac_arena.specs.Nodes.{learning_of, IsTable};

    ghost view = { λ t. learning_of t.orders t.slots.items t.salt };

    ghost invariant = { λ t. IsTable t.orders t.slots.items t.count t.buckets t.salt };
}

impl MacTable {
    /// Returns an empty table with room for `capacity` stations, for ports from 1 on, with
    /// `buckets` buckets. `salt` keeps a stranger from choosing stations that all fall into one
    /// bucket.
    pub fn new(
        alloc: Global,
        capacity: usize,
        ports: u8,
        buckets: usize,
        salt: u64,
    ) -> Result<Self, AllocError>
        requires capacity { capacity ≤ 65536 }
        requires some { 0 < buckets }
        requires buckets { buckets ≤ 65536 }
        ensures { IfOk result (λ t. t ≡ nothing_learnt capacity ports buckets salt) }
    {
        let orders = NodeOrders::new(alloc, buckets, ports as usize, capacity)?;
        let slots = nobody(alloc, capacity)?;
        Ok(MacTable {
            orders,
            slots,
            count: 0,
            buckets: buckets as u32,
            salt,
        })
    }

    /// Returns the number of stations. The table's lists name exactly these.
    pub fn len(&self) -> usize
        ensures value { result ≡ len self.now.entries }
        ensures lists { ListsName self.now }
    {
        self.count
    }

    /// Returns `true` if there is no room for another station.
    pub fn is_full(&self) -> bool
        ensures { result ≡ is_full self.now }
    {
        self.place().is_none()
    }

    /// Returns the bucket of a station: the upper half of the product of a constant and the number
    /// of VNI and address in 64 bits, mixed with the salt.
    pub fn bucket(&self, key: &Station) -> usize
        ensures { result ≡ bucket_in self.now key.now }
    {
        let number = (key.vni.number() as u64)
            .wrapping_mul(0x1_0000_0000_0000)
            .wrapping_add(key.mac.number());
        let hash = (number ^ self.salt).wrapping_mul(0x9E37_79B9_7F4A_7C15) >> 32;
        (hash as u32 % self.buckets) as usize
    }

    /// Returns the number of stations on the bucket's chain.
    pub fn chain(&self, bucket: usize) -> usize
        requires { bucket < length self.now.chains }
        ensures { result ≡ length (stations_at self.now.chains bucket) }
    {
        self.orders.chain_len(bucket)
    }

    /// Returns the station at a node with its entry, or `None` at a free node. It is one step of a
    /// walk over all nodes: the caller goes from node to node.
    pub fn walk(&self, node: usize) -> Option<Learned>
        requires { node < length self.now.places }
        ensures { result ≡ learned_at self.now node }
    {
        self.slots[node].learned()
    }

    /// Returns the entry of a station.
    pub fn look(&self, key: &Station) -> Option<Entry>
        ensures { result ≡ entry_at self.now key.now }
    {
        let bucket = self.bucket(key);
        match self.find(key, bucket) {
            Some((_node, learned)) => Some(learned.entry),
            None => None,
        }
    }

    /// Returns the unpinned station that has been silent longest.
    pub fn oldest(&self) -> Option<Station>
        ensures { result ≡ slice_get self.now.ageing 0 }
    {
        let Some(node) = self.orders.oldest() else {
            return None
        };
        let Some(learned) = self.slots[node].learned() else {
            return None
        };
        Some(learned.station)
    }

    /// Returns the node of a station of a bucket, with its content.
    fn find(&self, key: &Station, bucket: usize) -> Option<(usize, Learned)>
        requires { bucket ≡ bucket_in self.now key.now }
        ensures found { IfSome result (λ f. learned_at self.now f.0 ≡ Some f.1) }
        ensures same { IfSome result (λ f. f.1.station ≡ key.now) }
        ensures timeless { IfSome result (λ f. f.1.entry.pinned ≡ true → f.1.entry.last ≡ 0) }
        ensures still { IfSome result (λ f. f.1.entry.pinned ≡ true
            → left key.now self.now.ageing ≡ self.now.ageing) }
        ensures missing { IfNone result (entry_at self.now key.now ≡ None) }
    {
        let mut at = self.orders.first_in_chain(bucket);
        for _ in 0..self.orders.chain_len(bucket) {
            let Some(node) = at else { return None };
            if let Some(learned) = self.slots[node].learned() {
                if learned.station == *key {
                    return Some((node, learned));
                }
            }
            at = self.orders.next_in_chain(node);
        }
        None
    }

    /// Returns the first unpinned station of the port's list.
    pub fn first_of(&self, port: u8) -> Option<Station>
        requires some { 0 < port }
        requires port { port ≤ length self.now.ports }
        ensures { result
            ≡ first_unpinned self.now (stations_at self.now.ports (place_of_port port)) }
    {
        let list = place_of_port(port);
        let mut at = self.orders.first_at_port(list);
        for _ in 0..self.orders.port_len(list) {
            let Some(node) = at else { return None };
            if let Some(learned) = self.slots[node].learned() {
                if !learned.entry.pinned {
                    return Some(learned.station);
                }
            }
            at = self.orders.next_at_port(node);
        }
        None
    }

    /// Returns the number of stations at a port.
    pub fn count_at(&self, port: u8) -> usize
        requires some { 0 < port }
        requires port { port ≤ length self.now.ports }
        ensures { result ≡ length (stations_at self.now.ports (place_of_port port)) }
    {
        self.orders.port_len(place_of_port(port))
    }

    /// Learns a station on a port, at a second that isn't below an earlier one.
    pub fn learn(&mut self, key: &Station, port: u8, second: u64) -> Learnt
        requires some { 0 < port }
        requires port { port ≤ length self.old.ports }
        requires latest { IsLatest self.old second }
        ensures answer { result ≡ learnt_of self.old key.now port }
        ensures after { self.new ≡ after_learn self.old key.now port second result }
    {
        let bucket = self.bucket(key);
        match self.find(key, bucket) {
            Some((node, learned)) => self.learn_again(node, &learned, port, second),
            None => self.learn_new(key, bucket, port, second),
        }
    }

    /// Pins a station on a port, whether it is known or not. Returns `false`, and changes nothing,
    /// if it is unknown and there is no room.
    pub fn pin(&mut self, key: &Station, port: u8) -> bool
        requires some { 0 < port }
        requires port { port ≤ length self.old.ports }
        ensures answer { result ≡ can_pin self.old key.now }
        ensures after { self.new ≡ after_pin self.old key.now port }
    {
        let bucket = self.bucket(key);
        match self.find(key, bucket) {
            Some((node, learned)) => {
                self.pin_known(node, &learned, port);
                true
            }
            None => match self.place() {
                Some(node) => {
                    self.enter(node, key, bucket, port);
                    true
                }
                None => false,
            },
        }
    }

    /// Removes a station, and returns `true` if it was known.
    pub fn remove(&mut self, key: &Station) -> bool
        ensures answer { result ≡ is_some (entry_at self.old key.now) }
        ensures after { self.new ≡ after_removal self.old key.now }
    {
        let bucket = self.bucket(key);
        let Some((node, learned)) = self.find(key, bucket) else {
            return false
        };
        if learned.entry.pinned {
            self.leave(node);
        } else {
            // `leave` frees nodes that don't age: so the node leaves the ageing list first, as if
            // its station were pinned.
            self.hold(node);
            self.leave(node);
        }
        true
    }

    /// The node that a new station takes, if there is room.
    fn place(&self) -> Option<usize>
        ensures some { IfSome result (λ n. slice_get self.now.free 0 ≡ Some n) }
        ensures room { IfSome result (λ n. is_full self.now ≡ false) }
        ensures none { IfNone result (is_full self.now ≡ true) }
    {
        self.orders.first_free()
    }

    /// Learns a station that isn't known.
    fn learn_new(&mut self, key: &Station, bucket: usize, port: u8, second: u64) -> Learnt
        requires bucket { bucket ≡ bucket_in self.old key.now }
        requires some { 0 < port }
        requires port { port ≤ length self.old.ports }
        requires latest { IsLatest self.old second }
        requires new { entry_at self.old key.now ≡ None }
        ensures answer { result ≡ learnt_of self.old key.now port }
        ensures after { self.new ≡ after_learn self.old key.now port second result }
    {
        let Some(node) = self.place() else {
            return Learnt::Full
        };
        self.enter(node, key, bucket, port);
        self.hear(node, second);
        Learnt::New
    }

    /// Learns a station that is known.
    #[inline(always)]
    fn learn_again(&mut self, node: usize, learned: &Learned, port: u8, second: u64) -> Learnt
        requires some { 0 < port }
        requires port { port ≤ length self.old.ports }
        requires latest { IsLatest self.old second }
        requires at { learned_at self.old node ≡ Some learned.now }
        ensures answer { result ≡ learnt_of self.old learned.now.station port }
        ensures after { self.new ≡ after_learn self.old learned.now.station port second result }
    {
        if learned.entry.pinned {
            return Learnt::Pinned;
        }
        if learned.entry.port == port {
            self.hold(node);
            self.hear(node, second);
            return Learnt::Refreshed;
        }
        self.shift(node, port);
        self.hold(node);
        self.hear(node, second);
        Learnt::Moved
    }

    /// Pins a station that is known.
    fn pin_known(&mut self, node: usize, learned: &Learned, port: u8)
        requires some { 0 < port }
        requires port { port ≤ length self.old.ports }
        requires at { learned_at self.old node ≡ Some learned.now }
        requires timeless { learned.now.entry.pinned ≡ true → learned.now.entry.last ≡ 0 }
        requires still { learned.now.entry.pinned ≡ true
            → left learned.now.station self.old.ageing ≡ self.old.ageing }
        ensures { self.new ≡ after_pin self.old learned.now.station port }
    {
        if learned.entry.pinned {
            if learned.entry.port != port {
                self.shift(node, port);
            }
            return;
        }
        self.hold(node);
        if learned.entry.port != port {
            self.shift(node, port);
        }
    }

    /// A new station takes the first free node, pinned on the port.
    fn enter(&mut self, node: usize, key: &Station, bucket: usize, port: u8)
        requires bucket { bucket ≡ bucket_in self.old key.now }
        requires some { 0 < port }
        requires port { port ≤ length self.old.ports }
        requires free { slice_get self.old.free 0 ≡ Some node }
        requires new { entry_at self.old key.now ≡ None }
        ensures after { self.new ≡ entered self.old key.now port }
        ensures at { learned_at self.new node
            ≡ Some (record { station = key.now; entry = pinned_at port }) }
    {
        self.orders.enter(node, bucket, place_of_port(port));
        self.slots[node] = Slot::pinned(key, port);
        self.count += 1;
    }

    /// A pinned station is heard on its port, and ages from then on.
    fn hear(&mut self, node: usize, second: u64)
        requires at { learned_at self.old node ≡ Some (standing self.old node) }
        requires pinned { (standing self.old node).entry.pinned ≡ true }
        requires latest { IsLatest self.old second }
        ensures { let x = standing self.old node in
            self.new ≡ heard self.old x.station x.entry.port second }
    {
        self.orders.age(node);
        self.slots[node].hear(second);
    }

    /// An ageing station is pinned on its port.
    fn hold(&mut self, node: usize)
        requires at { learned_at self.old node ≡ Some (standing self.old node) }
        requires ageing { (standing self.old node).entry.pinned ≡ false }
        ensures after { let x = standing self.old node in
            self.new ≡ held self.old x.station x.entry.port }
        ensures at { learned_at self.new node ≡ Some (held_on (standing self.old node)) }
    {
        self.orders.hold(node);
        self.slots[node].hold();
    }

    /// A station goes to another port.
    fn shift(&mut self, node: usize, port: u8)
        requires some { 0 < port }
        requires port { port ≤ length self.old.ports }
        requires at { learned_at self.old node ≡ Some (standing self.old node) }
        ensures after { let x = standing self.old node in
            self.new ≡ shifted self.old x.station x.entry port }
        ensures at { learned_at self.new node ≡ Some (shifted_to port (standing self.old node)) }
    {
        self.orders.shift(node, place_of_port(port));
        self.slots[node].shift(port);
    }

    /// A pinned station leaves the table.
    fn leave(&mut self, node: usize)
        requires at { learned_at self.old node ≡ Some (standing self.old node) }
        requires pinned { (standing self.old node).entry.pinned ≡ true }
        ensures { self.new ≡ dropped self.old (standing self.old node).station }
    {
        self.orders.leave(node);
        self.slots[node].leave();
        self.count -= 1;
    }
}

/// Returns this number of empty places.
fn nobody(alloc: Global, places: usize) -> Result<Vec<Slot>, AllocError>
    ensures { IfOk result (λ v. v.items ≡ replicate places None) }
{
    vec![in alloc; Slot::nobody(); places]
}
