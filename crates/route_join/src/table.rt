//! The table of route updates: the newest value of each register, of the
//! originators that it listens to.
ghost use Rattle.std.specs.Prelude.{◌≡◌, ◌+◌, ◌↔◌, false, Some, None, Ok, Err, IfOk, OnOk, OnErr, IfErr, MatchOption, ℕ, true};
ghost use Rattle.std.specs.Prelude.{eqb};
ghost use Rattle.std.specs.List.{list_any};
ghost use Rattle.std.specs.FinMap.{empty};
ghost use Rattle.ether_wire.specs.Ends.{Puts};
ghost use Rattle.route_join.specs.Report.{report_of};
ghost use Rattle.route_join.specs.Table.{AreOriginators, AreWellFormed, IsListed, register_of, value_at, update_at, is_listed, with_update};
ghost use Rattle.route_join.specs.Owner.{owner, IsOwner, IsUnowned};
ghost use Rattle.route_join.specs.Joins.{join, IsJoin, IsPartJoin};
ghost use Rattle.route_join.specs.Flood.{flood_of, IsFloodList};
ghost use Rattle.route_join.specs.Taken.{taken_of, number_of};
ghost use Rattle.route_join.specs.Updates.{all_updates, updates_of, AreAllUpdates, AreUpdatesOf};
ghost use Rattle.route_join.specs.After.{updates_after};
ghost use Rattle.route_wire.specs.declared.update.Value.{Value};

use crate::flood::put_flood;
use crate::groups::{Groups, put_groups};
use crate::subject::{Subject, subject_of};
use crate::updates::{Updates, UpdatesOf};
use arrayvec::ArrayVec;
use ether_wire::{Addr, Device, Mac, Out, Vni};
use route_wire::{Key, NO_MEMORY, Register, UNKNOWN_ORIGINATOR, Update};
use std::alloc::Global;
use std::marker::Model;

/// The result of an update that a table took.
#[derive(Clone, Copy, Debug, PartialEq, Eq)]
pub enum Taken {
    /// The update is now its register's value: the register is new, or the update is newer than the
    /// former value.
    Newer,
    /// The register's value is this update or a newer one, and is unchanged.
    Known,
}

/// Why a table refused an update. The table is unchanged.
#[derive(Clone, Copy, Debug, PartialEq, Eq)]
pub enum TakeError {
    /// The update's originator isn't one that the table listens to.
    UnknownOriginator,
    /// The register is new, and there is no memory for it.
    NoMemory,
}

/// A merge that stopped at a register for which there was no memory.
#[derive(Clone, Copy, Debug, PartialEq, Eq)]
pub struct Unmerged {
    /// The number of registers of the other table that were joined, the first in the order of a
    /// report.
    pub joined: usize,
}

impl Unmerged {
    /// Returns the refusal's number in notes: that of refused memory.
    pub fn number(self) -> u8
        ensures { result ≡ number_of TakeError.NoMemory }
    {
        TakeError::NoMemory.number()
    }
}

impl TakeError {
    /// Returns the refusal's number in notes.
    pub fn number(self) -> u8
        ensures { result ≡ number_of self }
    {
        match self {
            TakeError::UnknownOriginator => UNKNOWN_ORIGINATOR,
            TakeError::NoMemory => NO_MEMORY,
        }
    }
}

/// The number of guesses: one for each value of an address's last six bits.
const GUESSES: usize = 64;

/// Returns for each value of the last six bits the place of an address that ends in them. A guess
/// is compared before it is used, so nothing depends on it but time.
fn guesses_of(addresses: &[Addr]) -> [u8; GUESSES] {
    let mut guesses = [0; GUESSES];
    for (place, address) in addresses.iter().enumerate() {
        guesses[address.number() as usize % GUESSES] = (place % 256) as u8;
    }
    guesses
}

/// Returns `true` if an address is among others, of which the one at `guess` is compared first.
fn is_among(addresses: &[Addr], guess: usize, address: Addr) -> bool
    ensures { result ≡ list_any (λ x. eqb x address) addresses.now }
{
    if guess < addresses.len() && addresses[guess] == address {
        return true;
    }
    addresses.contains(&address)
}

/// The newest value of each register, of the originators that the table listens to.
#[derive(Drop)]
pub struct Table {
    originators: ArrayVec<Addr, 64>,
    // the place of an originator, guessed by its last six bits
    guesses: [u8; GUESSES],
    groups: Groups,
    // The number of registers that all groups hold: a merge can count that many.
    held: usize,
}

impl Model for Table {
    ghost use Rattle.route_join.specs.Table.{Table as Registered, table_from};
    ghost use Rattle.route_join.specs.Group.{updates_in, IsCounted};
    ghost use Rattle.std.specs.Coded.{codes};
    ghost use Rattle.std.specs.FinMap.{code};

    ghost Value = { Registered };

    ghost coded = { Prim.hlevel (codes, code) };

    ghost view = { λ t. table_from t.originators.items (updates_in t.groups) };

    ghost invariant = { λ t. IsCounted t.originators.items t.groups t.held };
}

impl Table {
    /// Returns a table that listens to these originators (1 to 64 that all differ) and has taken
    /// nothing. It takes no memory; `take` allocates from `alloc`.
    pub fn new(alloc: Global, originators: ArrayVec<Addr, 64>) -> Self
        requires { AreOriginators originators.items }
        ensures { result ≡ record { originators = originators.items; registers = empty } }
    {
        Table::with_salt(alloc, originators, 0)
    }

    /// Returns a table as `new` does, which finds its registers by a hash with this salt. A sender
    /// of updates that knows the salt can make look-ups slow; their results don't depend on it.
    pub fn with_salt(alloc: Global, originators: ArrayVec<Addr, 64>, salt: u64) -> Self
        requires { AreOriginators originators.items }
        ensures { result ≡ record { originators = originators.items; registers = empty } }
    {
        let guesses = guesses_of(originators.as_slice());
        Table {
            originators,
            guesses,
            groups: Groups::new(alloc, salt),
            held: 0,
        }
    }

    /// Returns the originators that the table listens to, in the given order. Each register is of
    /// one of them.
    pub fn originators(&self) -> &[Addr]
        ensures value { result.now ≡ self.now.originators }
        ensures listeners { AreOriginators result.now }
        ensures listed { IsListed self.now }
    {
        self.originators.as_slice()
    }

    /// A law, which does nothing: each register of a table and its value make a well formed update.
    pub fn always_well_formed(&self)
        ensures { AreWellFormed self.now }
    {
        let _ = &self.held;
    }

    /// Returns the newest update of a register, if one was taken.
    pub fn register(&self, originator: Addr, key: Key) -> Option<Update>
        ensures { result ≡ update_at self.now (register_of originator key) }
    {
        match self.groups.get(&subject_of(&key)) {
            None => None,
            Some(group) => group.register(&Register { originator, key }),
        }
    }

    /// Takes an update: its register then has the newer of the update and its value so far.
    ///
    /// # Errors
    ///
    /// `UnknownOriginator` exactly if the update's originator isn't listed. `NoMemory` if the
    /// register is new and the memory for it was refused; a known register takes none.
    pub fn take(&mut self, update: &Update) -> Result<Taken, TakeError>
        ensures taken { IfOk result (λ taken. taken ≡ taken_of self.old update.now) }
        ensures table { OnOk result (self.new ≡ with_update self.old update.now) }
        ensures unknown { (result ≡ Err TakeError.UnknownOriginator)
            ↔ (is_listed self.old update.now.register.originator ≡ false) }
        ensures no_memory { result ≡ Err TakeError.NoMemory
            → value_at self.old update.now.register ≡ None }
        ensures there { (v : Value) → value_at self.old update.now.register ≡ Some v
            → is_listed self.old update.now.register.originator ≡ true
            → (result ≡ Ok (taken_of self.old update.now))
            × (self.new ≡ with_update self.old update.now) }
        ensures err { OnErr result (self.new ≡ self.old) }
        ensures listeners { self.new.originators ≡ self.old.originators }
    {
        let originator = update.register().originator;
        let guess = usize::from(self.guesses[originator.number() as usize % GUESSES]);
        if !is_among(self.originators.as_slice(), guess, originator) {
            return Err(TakeError::UnknownOriginator);
        }
        update.always_well_formed();
        // the guess is also a register's place, if each originator has one and they are in order
        let Ok(taken) = self.groups.take(&mut self.held, guess, update) else {
            return Err(TakeError::NoMemory);
        };
        Ok(taken)
    }

    /// Joins another table to this one, register by register in the order of a report: each
    /// register of either then has the newer of its values. Each originator of the other table has
    /// to be listed.
    ///
    /// # Errors
    ///
    /// `Unmerged` if there was no memory for a register: those before it were joined. A second
    /// merge completes the first.
    pub fn merge(&mut self, other: &Table) -> Result<(), Unmerged>
        requires { (o : ℕ) → is_listed other.now o ≡ true → is_listed self.old o ≡ true }
        ensures merged { OnOk result (self.new ≡ join self.old other.now) }
        ensures joined { OnOk result (IsJoin self.old other.now self.new) }
        ensures part { IfErr result
            (λ stopped. IsPartJoin self.old other.now stopped.joined self.new) }
        ensures listeners { self.new.originators ≡ self.old.originators }
    {
        let mut joined = 0;
        for update in Updates::of(&other.groups) {
            if self.take(&update).is_err() {
                return Err(Unmerged { joined });
            }
            joined += 1;
        }
        Ok(())
    }

    /// Returns the owner of a MAC address in a network, `None` exactly if no originator advertises
    /// it. Of the originators that advertise it, with any IP address or none, a static one comes
    /// first, then the one with the higher sequence number, then the one with the lower address
    /// (RFC 7432, section 15).
    #[inline(always)]
    pub fn owner(&self, vni: Vni, mac: Mac) -> Option<Addr>
        ensures value { result ≡ owner self.now vni mac }
        ensures best { MatchOption result (IsUnowned self.now vni mac) (IsOwner self.now vni mac) }
    {
        match self.groups.get(&Subject::address(vni, mac)) {
            None => None,
            Some(group) => group.owner(),
        }
    }

    /// Returns the updates of a MAC address in a network, of every originator and with any IP
    /// address or none, in the order of a report. It takes no memory.
    pub fn updates_of(&self, vni: Vni, mac: Mac) -> UpdatesOf<'_>
        ensures value { result ≡ updates_of self.now vni mac }
        ensures exact { AreUpdatesOf self.now vni mac result }
    {
        let subject = Subject::address(vni, mac);
        match self.groups.get(&subject) {
            None => UpdatesOf::none(),
            Some(group) => group.updates(&subject),
        }
    }

    /// Returns the updates of all registers, in the order of a report. It takes no memory.
    pub fn updates(&self) -> Updates<'_>
        ensures value { result ≡ all_updates self.now }
        ensures exact { AreAllUpdates self.now result }
    {
        Updates::of(&self.groups)
    }

    /// Returns the updates of the registers after this one, in the order of a report. It takes no
    /// memory, and finds the first one by a search.
    pub fn updates_after(&self, register: &Register) -> Updates<'_>
        ensures { result ≡ updates_after register.now (all_updates self.now) }
    {
        Updates::after(&self.groups, register)
    }

    /// Returns the originators that advertise a network's flood list (RFC 7432, section 7.3),
    /// ascending.
    pub fn flood(&self, vni: Vni) -> ArrayVec<Addr, 64>
        ensures value { result.items ≡ flood_of self.now vni }
        ensures list { IsFloodList self.now vni result.items }
    {
        let mut flood = ArrayVec::new();
        self.flood_into(vni, &mut flood);
        flood
    }

    /// Writes the flood list into an existing list: a caller that reuses one list avoids the copies
    /// of a whole list.
    pub fn flood_into(&self, vni: Vni, flood: &mut ArrayVec<Addr, 64>)
        ensures value { flood.new.items ≡ flood_of self.now vni }
        ensures list { IsFloodList self.now vni flood.new.items }
    {
        flood.clear();
        let subject = Subject::flood(vni);
        match self.groups.get(&subject) {
            None => {}
            Some(group) => put_flood(group.updates(&subject), vni, flood),
        }
    }

    /// Writes the report of the table: a line for each register, and one for the owner of each MAC
    /// address after its last register. It takes no memory.
    ///
    /// # Errors
    ///
    /// `Device` exactly if a call of the writer failed; then no further call is made.
    pub fn write_report<W: Out>(&self, out: &mut W) -> Result<(), Device>
        ensures { Puts (W.end out.old) (W.end out.new) (report_of self.now) result }
    {
        put_groups(out, &self.groups)
    }
}
