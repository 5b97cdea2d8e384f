//! An update as a group stores it: 40 octets without the VNI and the MAC address, which whoever
//! reads the group knows.
ghost use Rattle.std.specs.Prelude.{◌≡◌, ◌+◌, ◌*◌, ◌<◌, ◌≤◌, ◌^◌};
ghost use Rattle.route_wire.specs.Fields.{IsUpdate};
ghost use Rattle.route_wire.specs.Order.{ip_of, is_newer};
ghost use Rattle.route_join.specs.Subject.{subject_of};
ghost use Rattle.route_join.specs.Inner.PackedUpdate.{ip_by, content_by};

use crate::seen_update::SeenUpdate;
use crate::subject::Subject;
use ether_wire::{Addr, Vni};
use route_wire::{Addr6, Advert, Content, Ip, Key, Register, Update, Value};
use std::marker::Model;

/// Returns the version of a key's IP address, as 0 for none, 1 for IPv4 and 2 for IPv6, and its
/// number.
#[tactic(auto, using(crate::proofs::Entries::v4_back))]
#[inline(always)]
fn ip_numbers(key: &Key) -> (u32, u128)
    ensures back { ip_by result.0 result.1 ≡ ip_of key.now }
    ensures small { result.0 ≤ 2 }
{
    match key.ip() {
        None => (0, 0),
        Some(ip) => match ip {
            Ip::V4(address) => (1, u128::from(address.number())),
            Ip::V6(address) => (2, address.number()),
        },
    }
}

/// Returns the number of two halves.
#[inline(always)]
fn joined(high: u64, low: u64) -> u128
    ensures { result ≡ high * 2 ^ 64 + low }
{
    u128::from(high) * 0x1_0000_0000_0000_0000 + u128::from(low)
}

/// Returns the IP address of a version and a number.
#[inline(always)]
fn ip_by(version: u32, number: u128) -> Option<Ip>
    ensures { result ≡ ip_by version number }
{
    if version == 0 {
        return None;
    }
    if version == 1 {
        return Some(Ip::V4(Addr::new((number % 0x1_0000_0000) as u32)));
    }
    Some(Ip::V6(Addr6::new(number)))
}

/// Returns a kind, which is 0 for a withdrawal, 1 for a dynamic address, 2 for a static one, and 3
/// or 4 with a second label; a sequence number; and that label.
#[tactic(auto, using(crate::proofs::Entries::advert_is))]
#[inline(always)]
fn content_numbers(content: &Content) -> (u32, u32, u32)
    ensures back { content_by result.0 result.1 result.2 ≡ content.now }
    ensures kind { result.0 ≤ 4 }
    ensures label { result.2 < 2 ^ 24 }
{
    match content {
        Content::Withdrawn => (0, 0, 0),
        Content::Advert(advert) => match advert.label2 {
            None => {
                if advert.is_static {
                    return (2, advert.sequence, 0);
                }
                (1, advert.sequence, 0)
            }
            Some(label) => {
                if advert.is_static {
                    return (4, advert.sequence, label.number());
                }
                (3, advert.sequence, label.number())
            }
        },
    }
}

/// Returns the content of its numbers.
#[inline(always)]
fn content_by(kind: u32, sequence: u32, label: u32) -> Content
    requires { label < 2 ^ 24 }
    ensures { result ≡ content_by kind sequence label }
{
    if kind == 0 {
        return Content::Withdrawn;
    }
    Content::Advert(Advert {
        is_static: kind % 2 == 0,
        sequence,
        label2: if kind < 3 {
            None
        } else {
            Some(Vni::new(label))
        },
    })
}

/// An update in 40 octets. Contracts see the whole update. Its VNI and its MAC address take no
/// memory: whoever wants the update gives them back.
#[derive(Drop)]
pub(crate) struct PackedUpdate {
    counter: u64,
    // the number of the IP address: one number of 128 bits would be aligned to 16 octets
    high: u64,
    low: u64,
    originator: Addr,
    incarnation: u32,
    sequence: u32,
    // the second label in the lowest 24 bits, above it 3 bits of the kind, above them the version
    word: u32,
    update: SeenUpdate,
}

impl Model for PackedUpdate {
    ghost use Rattle.std.specs.Prelude.{◌+◌, ◌*◌, ◌^◌};
    ghost use Rattle.route_wire.specs.Fields.{Fields};
    ghost use Rattle.route_join.specs.Inner.PackedUpdate.{IsEntry};

    ghost Value = { Fields };

    ghost view = { λ e. e.update.fields };

    ghost invariant = { λ e. IsEntry e.counter e.incarnation e.originator (e.high * 2 ^ 64 + e.low)
        e.sequence e.word e.update.fields };
}

impl PackedUpdate {
    /// Returns the entry of an update.
    #[inline(always)]
    pub(crate) fn of(update: &Update) -> Self
        ensures { result ≡ update.now }
    {
        update.always_well_formed();
        let Register { originator, key } = update.register();
        let value = update.value();
        let (version, ip) = ip_numbers(&key);
        let (kind, sequence, label) = content_numbers(&value.content);
        PackedUpdate {
            counter: value.counter,
            high: (ip / 0x1_0000_0000_0000_0000) as u64,
            low: (ip % 0x1_0000_0000_0000_0000) as u64,
            originator,
            incarnation: value.incarnation,
            sequence,
            word: (version * 8 + kind) * 0x100_0000 + label,
            update: SeenUpdate::of(update),
        }
    }

    /// A law, which does nothing: an entry's update is well formed.
    #[inline(always)]
    fn always_well_formed(&self)
        ensures { IsUpdate self.now }
    {
        let _ = &self.counter;
    }

    /// Returns the originator.
    #[inline(always)]
    pub(crate) fn originator(&self) -> Addr
        ensures { result ≡ self.now.register.originator }
    {
        self.originator
    }

    /// Returns the IP address of the key, from its numbers.
    #[inline(never)]
    fn ip_by_numbers(&self) -> Option<Ip>
        ensures { result ≡ ip_of self.now.register.key }
    {
        ip_by(self.word / 0x800_0000, joined(self.high, self.low))
    }

    /// Returns the IP address of the key, if it has one. Most keys have none.
    #[inline(always)]
    pub(crate) fn ip(&self) -> Option<Ip>
        ensures { result ≡ ip_of self.now.register.key }
    {
        if self.word / 0x800_0000 == 0 {
            return None;
        }
        self.ip_by_numbers()
    }

    /// Returns the value.
    #[inline(always)]
    pub(crate) fn value(&self) -> Value
        ensures { result ≡ self.now.value }
    {
        let label = self.word % 0x100_0000;
        Value {
            counter: self.counter,
            incarnation: self.incarnation,
            content: content_by(self.word / 0x100_0000 % 8, self.sequence, label),
        }
    }

    /// Returns `true` if an update is newer. Here all of both values is compared.
    #[inline(never)]
    fn is_older_at_last(&self, update: &Update) -> bool
        ensures { result ≡ is_newer update.now.value self.now.value }
    {
        update.value().is_newer(&self.value())
    }

    /// Returns `true` if an update of the same register is newer. Mostly the counters decide.
    #[inline(always)]
    pub(crate) fn is_older(&self, update: &Update) -> bool
        ensures { result ≡ is_newer update.now.value self.now.value }
    {
        let Value {
            counter,
            incarnation,
            content: _,
        } = update.value();
        if self.incarnation != incarnation {
            return self.incarnation < incarnation;
        }
        if self.counter != counter {
            return self.counter < counter;
        }
        self.is_older_at_last(update)
    }

    /// Returns the key, which is about this subject.
    #[inline(always)]
    fn key(&self, subject: &Subject) -> Key
        requires { subject_of self.now.register.key ≡ subject.now }
        ensures { result ≡ self.now.register.key }
    {
        match subject.mac() {
            None => Key::Flood(subject.vni()),
            Some(mac) => Key::Mac(subject.vni(), mac, self.ip()),
        }
    }

    /// Returns the update, which is about this subject.
    #[inline(always)]
    pub(crate) fn about(&self, subject: &Subject) -> Update
        requires { subject_of self.now.register.key ≡ subject.now }
        ensures { result ≡ self.now }
    {
        self.always_well_formed();
        let (originator, key) = (self.originator(), self.key(subject));
        Update::new(Register { originator, key }, self.value())
    }

    /// Returns the entry again, whose update is about this subject. The update itself isn't made.
    #[inline(always)]
    pub(crate) fn again(&self, subject: &Subject) -> Self
        requires { subject_of self.now.register.key ≡ subject.now }
        ensures { result ≡ self.now }
    {
        let update = self.about(subject);
        PackedUpdate {
            counter: self.counter,
            high: self.high,
            low: self.low,
            originator: self.originator,
            incarnation: self.incarnation,
            sequence: self.sequence,
            word: self.word,
            update: SeenUpdate::of(&update),
        }
    }
}
