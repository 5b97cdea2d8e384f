//! A speaker: the own registers of an edge, their numbers, and the pending ones.
ghost use Rattle.std.specs.Prelude.{◌≡◌, ◌≢◌, ◌⊎◌, ◌+◌, ◌<◌, ◌^◌, ◌↔◌, [], IfOk, IfSome, IfNone, IsSome, IsOk, IsErr, true, false, OnOk, OnErr, Ok, Err, None, Contains, nat_le, length, is_some, slice_get};
ghost use Rattle.route_join.specs.Table.{AreOriginators, value_at, is_listed};
ghost use Rattle.route_wire.specs.Fields.{is_individual, FitsKey, flood_advert};
ghost use Rattle.route_join.specs.Owner.{owner};
ghost use Rattle.route_join.specs.Taken.{taken_of};
ghost use Rattle.ev_claims.specs.Speaker.{own, own_advert, is_originated, is_at, is_ahead, is_spent, is_newest, is_returning, silent, announced, IsOwnAt, IsNoOwnAt, KeepsNumbers, after_originating, after_importing, after_importing_own, after_announcing};
ghost use Rattle.ev_claims.specs.Opening.{after_floods};

use crate::pending::Pending;
use arrayvec::ArrayVec;
use ether_wire::{Addr, Mac, Vni};
use route_join::{Table, TakeError, Taken};
use route_wire::{Advert, Content, Key, Register, Update, Value};
use std::alloc::{AllocError, Global};
use std::marker::Model;

/// From this number on, an edge's numbers are kept for withdrawals.
pub const SPENT: u64 = 0x8000_0000_0000_0000;

/// Why an update under the edge's own name wasn't taken. Nothing changed.
#[derive(Clone, Copy, Debug, PartialEq, Eq)]
pub enum OwnError {
    /// It is newer than the edge's own update, and not of an earlier incarnation: another speaker
    /// uses this name.
    Ahead,
    /// It would have to be withdrawn, and the edge's counter is at `SPENT` or above.
    Spent,
    /// There is no memory for the register, or for its withdrawal.
    NoMemory,
}

/// A speaker: a table with an edge's own registers, their numbers, and the pending ones.
#[derive(Drop)]
pub struct Speaker {
    address: Addr,
    incarnation: u32,
    table: Table,
    counter: u64,
    pending: Pending,
}

impl Model for Speaker {
    ghost use Rattle.std.specs.Coded.{codes};
    ghost use Rattle.std.specs.FinMap.{code};
    ghost use Rattle.ev_claims.specs.Speaker.{Speaker as State};
    ghost use Rattle.ev_claims.specs.Inner.Speaker.{speaker_of, IsSpeaker};

    ghost Value = { State };

    ghost coded = { Prim.hlevel (codes, code) };

    ghost view = { λ v. speaker_of v.address v.incarnation v.table v.counter v.pending };

    ghost invariant = { λ v. IsSpeaker
        (speaker_of v.address v.incarnation v.table v.counter v.pending) v.pending.known };
}

impl Speaker {
    /// Nothing is originated yet. As many of the latest own updates as there are places are found
    /// at once by their numbers. Registers are found by a hash under the salt.
    pub fn new(
        alloc: Global,
        address: Addr,
        incarnation: u32,
        originators: ArrayVec<Addr, 64>,
        places: usize,
        salt: u64,
    ) -> Result<Self, AllocError>
        requires originators { AreOriginators originators.items }
        requires listed { Contains originators.items address }
        ensures { IfOk result (λ v. v ≡ silent address incarnation originators.items) }
    {
        let pending = Pending::new(alloc, places, salt)?;
        Ok(Speaker {
            address,
            incarnation,
            table: Table::with_salt(alloc, originators, salt),
            counter: 0,
            pending,
        })
    }

    /// Says of each VNI, in this order, that the edge is on its flood list.
    pub fn open(&mut self, vnis: &[Vni]) -> Result<(), AllocError>
        requires { self.old.counter + length vnis.now < 2 ^ 64 }
        ensures { OnOk result (self.new ≡ after_floods self.old vnis.now) }
    {
        for vni in vnis {
            self.originate(&Key::Flood(*vni), flood_advert())?;
        }
        Ok(())
    }

    /// A law, which does nothing: the numbers are kept.
    pub fn always_numbered(&self)
        ensures { KeepsNumbers self.now }
    {
        let _ = &self.counter;
    }

    /// The address under which it speaks.
    pub fn address(&self) -> Addr
        ensures { result ≡ self.now.address }
    {
        self.address
    }

    /// Which incarnation of the originator it is.
    pub fn incarnation(&self) -> u32
        ensures { result ≡ self.now.incarnation }
    {
        self.incarnation
    }

    /// The last number that was given.
    pub fn counter(&self) -> u64
        ensures { result ≡ self.now.counter }
    {
        self.counter
    }

    /// Returns the imported and originated routes.
    pub fn table(&self) -> &Table
        ensures { result.now ≡ self.now.table }
    {
        &self.table
    }

    /// The own update of the register that is guessed to have this number, if it has.
    fn guess(&self, counter: u64) -> Option<Update>
        ensures { IfSome result (IsOwnAt self.now counter) }
    {
        let register = self.pending.guess(counter)?;
        let update = self.table.register(self.address, register.key)?;
        let value = update.value();
        if value.incarnation != self.incarnation || value.counter != counter {
            return None;
        }
        Some(update)
    }

    /// The own update of this incarnation with this number, if it is still its register's value.
    /// One of the latest is found at once, any other by a walk over all own registers.
    pub fn own_at(&self, counter: u64) -> Option<Update>
        ensures some { IfSome result (IsOwnAt self.now counter) }
        ensures none { IfNone result (IsNoOwnAt self.now counter) }
    {
        if let Some(update) = self.guess(counter) {
            return Some(update);
        }
        for place in 0..self.pending.len() {
            let Some(register) = self.pending.register(place) else {
                return None
            };
            let Some(update) = self.table.register(self.address, register.key) else {
                continue
            };
            let value = update.value();
            if value.incarnation == self.incarnation && value.counter == counter {
                return Some(update);
            }
        }
        None
    }

    /// Whether it owns the address: of all adverts its own is the best.
    pub fn owns(&self, vni: Vni, mac: Mac) -> bool
        ensures { result ≡ is_at (owner self.now.table vni mac) self.now.address }
    {
        self.table.owner(vni, mac) == Some(self.address)
    }

    /// Originates this content for a key, under the next number. If the key was originated in this
    /// incarnation, its register has its places, and this takes no memory. If memory is refused,
    /// nothing changes.
    pub fn originate(&mut self, key: &Key, content: Content) -> Result<(), AllocError>
        requires number { self.old.counter + 1 < 2 ^ 64 }
        requires individual { is_individual key.now ≡ true }
        requires fits { FitsKey key.now content }
        ensures there { is_originated self.old key.now ≡ true → IsOk result }
        ensures ok { OnOk result (self.new ≡ after_originating self.old key.now content) }
        ensures err { OnErr result (self.new ≡ self.old) }
    {
        let register = Register {
            originator: self.address,
            key: *key,
        };
        self.pending.make_room(&register)?;
        let value = Value {
            incarnation: self.incarnation,
            counter: self.counter + 1,
            content,
        };
        let update = Update::new(register, value);
        if self.table.take(&update).is_err() {
            return Err(AllocError);
        }
        self.counter += 1;
        self.pending.mark(update.register(), self.counter);
        Ok(())
    }

    /// Withdraws a key that it advertises. It takes no memory.
    pub fn withdraw(&mut self, key: Key)
        requires number { self.old.counter + 1 < 2 ^ 64 }
        requires there { IsSome (own_advert self.old key) }
        ensures { self.new ≡ after_originating self.old key Content.Withdrawn }
    {
        let Some(last) = self.table.register(self.address, key) else {
            return
        };
        last.always_well_formed();
        self.counter += 1;
        let value = Value {
            incarnation: self.incarnation,
            counter: self.counter,
            content: Content::Withdrawn,
        };
        let update = Update::new(last.register(), value);
        let _taken = self.table.take(&update);
        self.pending.mark(last.register(), self.counter);
    }

    /// Takes another edge's update.
    pub fn import(&mut self, update: &Update) -> Result<Taken, TakeError>
        requires { update.now.register.originator ≢ self.old.address }
        ensures taken { IfOk result (λ taken. taken ≡ taken_of self.old.table update.now) }
        ensures ok { OnOk result (self.new ≡ after_importing self.old update.now) }
        ensures unknown { (result ≡ Err TakeError.UnknownOriginator)
            ↔ (is_listed self.old.table update.now.register.originator ≡ false) }
        ensures no_memory { result ≡ Err TakeError.NoMemory
            → value_at self.old.table update.now.register ≡ None }
        ensures err { OnErr result (self.new ≡ self.old) }
    {
        self.table.take(update)
    }

    /// Takes an update under the edge's own name. An advert of an earlier incarnation that would
    /// become its register's value is withdrawn in the same step.
    pub fn import_own(&mut self, update: &Update) -> Result<Taken, OwnError>
        requires own { update.now.register.originator ≡ self.old.address }
        ensures taken { IfOk result (λ taken. taken ≡ taken_of self.old.table update.now) }
        ensures ok { OnOk result (self.new ≡ after_importing_own self.old update.now) }
        ensures ahead { (result ≡ Err OwnError.Ahead) ↔ (is_ahead self.old update.now ≡ true) }
        ensures spent { (result ≡ Err OwnError.Spent) ↔ (is_spent self.old update.now ≡ true) }
        ensures no_memory { result ≡ Err OwnError.NoMemory
            → (value_at self.old.table update.now.register ≡ None)
            ⊎ (is_returning self.old update.now ≡ true) }
        ensures err { OnErr result (self.new ≡ self.old) }
    {
        if !self.is_newest(update) {
            return Ok(Taken::Known);
        }
        if update.value().incarnation >= self.incarnation {
            return Err(OwnError::Ahead);
        }
        match update.value().content {
            Content::Withdrawn => self.import_withdrawal(update),
            Content::Advert(_) => self.refute(update),
        }
    }

    /// Whether the update would become its register's value.
    fn is_newest(&self, update: &Update) -> bool
        ensures { result ≡ is_newest self.now update.now }
    {
        let register = update.register();
        match self.table.register(register.originator, register.key) {
            None => true,
            Some(last) => update.is_newer(&last),
        }
    }

    /// Takes a withdrawal of an earlier incarnation, which is its register's newest update.
    fn import_withdrawal(&mut self, update: &Update) -> Result<Taken, OwnError>
        requires own { update.now.register.originator ≡ self.old.address }
        requires newest { is_newest self.old update.now ≡ true }
        requires past { update.now.value.incarnation < self.old.incarnation }
        requires withdrawn { update.now.value.content ≡ Content.Withdrawn }
        ensures taken { IfOk result (λ taken. taken ≡ Taken.Newer) }
        ensures ok { OnOk result (self.new ≡ after_importing self.old update.now) }
        ensures why { OnErr result ((result ≡ Err OwnError.NoMemory)
            × (value_at self.old.table update.now.register ≡ None)) }
        ensures err { OnErr result (self.new ≡ self.old) }
    {
        match self.table.take(update) {
            Ok(taken) => Ok(taken),
            Err(_) => Err(OwnError::NoMemory),
        }
    }

    /// Withdraws an advert of an earlier incarnation, which would be its register's newest update.
    fn refute(&mut self, update: &Update) -> Result<Taken, OwnError>
        requires own { update.now.register.originator ≡ self.old.address }
        requires returning { is_returning self.old update.now ≡ true }
        ensures taken { IfOk result (λ taken. taken ≡ Taken.Newer) }
        ensures ok { OnOk result
            (self.new ≡ after_originating (after_importing self.old update.now)
            update.now.register.key Content.Withdrawn) }
        ensures spent { (result ≡ Err OwnError.Spent) ↔ (nat_le (2 ^ 63) self.old.counter ≡ true) }
        ensures not_ahead { result ≢ Err OwnError.Ahead }
        ensures err { OnErr result (self.new ≡ self.old) }
    {
        if self.counter >= SPENT {
            return Err(OwnError::Spent);
        }
        update.always_well_formed();
        match self.originate(&update.register().key, Content::Withdrawn) {
            Ok(()) => Ok(Taken::Newer),
            Err(_) => Err(OwnError::NoMemory),
        }
    }

    /// Whether a register waits to be announced.
    pub fn has_pending(&self) -> bool
        ensures { result ≡ is_some (slice_get self.now.pending 0) }
    {
        self.pending.first().is_some()
    }

    /// How many registers wait to be announced.
    pub fn pending(&self) -> usize
        ensures { result ≡ length self.now.pending }
    {
        self.pending.waiting()
    }

    /// The present update of the register that waits longest, which waits no more.
    pub fn announce(&mut self) -> Option<Update>
        ensures update { result ≡ announced self.old }
        ensures after { self.new ≡ after_announcing self.old }
        ensures none { IfNone result (self.old.pending ≡ []) }
    {
        let Some(register) = self.pending.first() else {
            return None
        };
        self.pending.unmark_first();
        self.table.register(register.originator, register.key)
    }
}

/// All that an advert of a flood list says.
fn flood_advert() -> Content
    ensures { result ≡ Content.Advert flood_advert }
{
    Content::Advert(Advert {
        is_static: false,
        sequence: 0,
        label2: None,
    })
}
